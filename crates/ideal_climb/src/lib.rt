// Single steps of the endless walk from one of its ideals to the last whose distance is at most a given one. The
// steps are those of the walk, by the recurrence (2-7) of source 000.
#![tactic(auto)]

ghost use Rattle.std.specs.Prelude.{◌≡◌, suc, ◌+◌, ◌-◌, ◌<◌, ◌≤◌};
ghost use Rattle.spec_definitions.specs.Products.{farthest};
ghost use Rattle.walk_step.specs.Step.{Ready};
ghost use Rattle.base_surd.specs.Surd.{g};
ghost use Rattle.walk_state.specs.Root.{name, top};
ghost use Rattle.ideal_climb.specs.Located.{OnWalk, IsLast};
ghost use Rattle.ideal_climb.specs.Climbs.{Turned, Climbs};

use base_counters::Distance;
use base_ideal::{Ideal, ideal_of};
use base_places::linear::sub_places;
use base_polynomial::Poly;
use base_surd::Surd;
use ideal_descend::advance;
use ideal_operand::cofactor::cofactor;
use walk_state::root::Root;

// The distance of the next index, where Q has `size` places.
#[tactic(auto, unfolding(spec_definitions::specs::Ticket::genus))]
pub fn next_distance(s: &Surd, size: usize, distance: Distance) -> Distance
    requires { (size ≤ suc (suc (g s.now))) × (distance.0 ≤ farthest) }
    ensures { result.0 ≡ distance.0 + (suc (suc (g s.now)) - size) }
{
    Distance(distance.0 + (s.n / 2 + 1 - size) as u64)
}

// One step in place: `before` becomes Q, which stands in `current`, and `current` and `rest` the next Q and the next
// remainder. The distance of the next index.
fn turn(
    r: &Root,
    before: &mut Poly,
    current: &mut Poly,
    rest: &mut [u32; 129],
    at: Distance,
) -> Distance
    requires sizes { (0 < current.old.size) × (current.old.size ≤ top r.now) × (top r.now ≤ 128) × (at.0 ≤ farthest) }
    requires ready { Ready (name r.now) (top r.now) current.old.size r.now.twice before.old.c current.old.c rest.old }
    ensures { Turned r.now before.old current.old rest.old before.new current.new rest.new at result }
{
    let size = current.size;
    let mut remains = [0u32; 129];
    let mut after = Poly::zero();
    advance(r, r.top(), before, current, rest, &mut remains, &mut after);
    *before = *current;
    *current = after;
    *rest = remains;
    next_distance(&r.surd, size, at)
}

// Steps in place, while the distance of the next index is at most y.
fn ascend(
    r: &Root,
    before: &mut Poly,
    current: &mut Poly,
    rest: &mut [u32; 129],
    from: Distance,
    y: Distance,
) -> Distance
    requires distances { (from.0 ≤ y.0) × (y.0 ≤ farthest) }
    requires climbs { Climbs r.now before.old current.old rest.old from }
    ensures climbs { Climbs r.now before.new current.new rest.new result }
    ensures last { (result.0 ≤ y.0) × (y.0 < result.0 + (top r.now - current.new.size)) }
{
    let mut at = from;
    while next_distance(&r.surd, current.size, at) <= y {
        at = turn(r, before, current, rest, at);
    }
    at
}

// The steps of `climb`, however many. The Q before the first is (D − P²)/Q, and the remainder before it d − P.
fn by_steps(r: &Root, a: &mut Ideal, at: Distance, y: Distance, z: &mut Ideal) -> Distance
    requires on_walk { OnWalk r.now.surd a.old at }
    requires distances { (at.0 ≤ y.0) × (y.0 ≤ farthest) }
    ensures { IsLast r.now.surd y.0 z.new result }
{
    let f = r.surd.field;
    let top = r.top();
    let mut before = Poly::zero();
    cofactor(f, &r.surd.radicand, a, &mut before);
    let mut rest = [0u32; 129];
    sub_places(f, &r.d, &a.p.c, top, &mut rest);
    let reached = ascend(r, &mut before, &mut a.q, &mut rest, at, y);
    ideal_of(f, &r.d, top, &a.q, &rest, z);
    reached
}

// z becomes the last ideal of the walk at a distance of at most y, by single steps from a, which stands at the distance
// `at`. The distance of z. What a holds is used up.
pub fn climb(r: &Root, a: &mut Ideal, at: Distance, y: Distance, z: &mut Ideal) -> Distance
    requires on_walk { OnWalk r.now.surd a.old at }
    requires distances { (at.0 ≤ y.0) × (y.0 ≤ farthest) }
    ensures { IsLast r.now.surd y.0 z.new result }
{
    if y < next_distance(&r.surd, a.q.size, at) {
        *z = *a;
        at
    } else {
        by_steps(r, a, at, y, z)
    }
}
