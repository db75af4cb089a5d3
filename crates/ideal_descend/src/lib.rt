// The steps of the reduction of a pair, until the degree of Q is at most g, and the reduced ideal that they end in.
// Each Q is by the recurrence (2-7) of source 000, as in the walk. The polynomials and arrays take turns from step to
// step, so that none is copied.
#![tactic(auto)]

ghost use Rattle.std.specs.Prelude.{◌≡◌, ℕ, ◌<◌, ◌≤◌, get_or};
ghost use Rattle.spec_arithmetic.specs.Polynomials.{sub as sub_of, rem as rem_of, monic as monic_of};
ghost use Rattle.base_field.specs.Named.{name, ops};
ghost use Rattle.base_places.specs.Places.{Within};
ghost use Rattle.base_polynomial.specs.Whole.{poly, Held, Is};
ghost use Rattle.walk_step.specs.Step.{Ready, Stepped};
ghost use Rattle.walk_state.specs.Root.{top, field};
ghost use Rattle.ideal_descend.specs.Height.{Height};
ghost use Rattle.ideal_descend.specs.Turn.{Going, Taken, Reduces};

use base_ideal::{Ideal, ideal_of};
use base_polynomial::Poly;
use walk_state::root::Root;
use walk_step::Step;
use walk_step::step::step;

// Where the reduction stands, at an index j: how many places P_j + d may have, and the sum of deg a_i for i from 1
// to j.
#[derive(Clone, Copy)]
pub struct Stage {
    pub top: usize,
    pub sum: u64,
}

// The size of twice − rest: from `from` on their places are equal.
pub fn height(twice: &[u32; 129], rest: &[u32; 129], from: usize) -> usize
    requires from_bound { from ≤ 129 }
    requires equal { (i : ℕ) → from ≤ i → get_or twice.now i 0 ≡ get_or rest.now i 0 }
    ensures { Height twice.now rest.now result }
{
    for n in (0..from).rev() {
        if twice[n] != rest[n] {
            return n + 1;
        }
    }
    0
}

// z becomes the reduced ideal, where the degree of Q is at most g: Q is `current`, and P is d − rest. The sum of the
// degrees of a.
fn finish(r: &Root, current: &Poly, rest: &[u32; 129], at: Stage, z: &mut Ideal) -> u64
    requires sizes { (0 < current.now.size) × (at.top ≤ 128) }
    requires held { Held (field r.now) current.now }
    requires within { (n : ℕ) → at.top ≤ n → top r.now ≤ n → Within (name (field r.now)) rest.now n }
    ensures q { Is (field r.now) z.new.q (monic_of (ops (field r.now)) (poly current.now)) }
    ensures p { Is (field r.now) z.new.p (rem_of (ops (field r.now)) (sub_of (ops (field r.now)) r.now.d rest.now) (monic_of (ops (field r.now)) (poly current.now))) }
    ensures sum { result ≡ at.sum }
{
    let places = at.top.max(r.top());
    ideal_of(r.surd.field, &r.d, places, current, rest, z);
    at.sum
}

// One step: `remains` and `after` become the next remainder and the next Q, where P + d and both Q have at most `top`
// places.
pub fn advance(
    r: &Root,
    top: usize,
    before: &Poly,
    current: &Poly,
    rest: &[u32; 129],
    remains: &mut [u32; 129],
    after: &mut Poly,
)
    requires sizes { (0 < current.now.size) × (current.now.size ≤ top) × (top ≤ 128) }
    requires ready { Ready (name (field r.now)) top current.now.size r.now.twice before.now.c current.now.c rest.now }
    ensures { Stepped (name (field r.now)) r.now.twice before.now.c current.now.c rest.now remains.new after.new.c after.new.size }
{
    let f = r.surd.field;
    let size = current.size;
    let s = Step {
        field: f,
        twice: &r.twice,
        before: &before.c,
        current: &current.c,
        rest,
        top,
        size,
        lead_inverse: f.inverse(current.c[size - 1]),
    };
    after.size = step(&s, remains, &mut after.c);
}

// The same, from where the reduction stands to where it stands then. deg a is the degree of P + d = twice − remains
// less that of Q, at the next index.
fn stride(
    r: &Root,
    before: &Poly,
    current: &Poly,
    rest: &[u32; 129],
    remains: &mut [u32; 129],
    after: &mut Poly,
    at: Stage,
) -> Stage
    requires high { top r.now ≤ current.now.size }
    requires going { Going r.now before.now current.now rest.now at }
    ensures { Taken r.now before.now current.now rest.now remains.new after.new at result }
{
    advance(r, at.top, before, current, rest, remains, after);
    let top = height(&r.twice, remains, current.size);
    Stage {
        top,
        sum: at.sum + (top - after.size) as u64,
    }
}

// z becomes the reduced ideal, by steps from where the reduction stands until the degree of Q is at most g: Q is in b,
// the Q before it in a, and the remainder of the step before in x. The next Q goes to c and the next remainder to y.
// What these hold is used up. The sum of the degrees of a from index 1 on.
fn take_turns(
    r: &Root,
    a: &mut Poly,
    b: &mut Poly,
    c: &mut Poly,
    x: &mut [u32; 129],
    y: &mut [u32; 129],
    at: Stage,
    z: &mut Ideal,
) -> u64
    requires { Going r.now a.old b.old x.old at }
    ensures { (t : Going r.now a.old b.old x.old at) → Reduces r.now.surd t.x z.new result }
{
    if b.size < r.top() {
        return finish(r, b, x, at, z);
    }
    let to = stride(r, a, b, x, y, c, at);
    take_turns(r, b, c, a, y, x, to, z)
}

// z becomes the reduced ideal, by steps from where the reduction stands until the degree of Q is at most g. What the
// other three hold is used up. The sum of the degrees of a from index 1 on.
pub fn descend(
    r: &Root,
    before: &mut Poly,
    current: &mut Poly,
    rest: &mut [u32; 129],
    at: Stage,
    z: &mut Ideal,
) -> u64
    requires { Going r.now before.old current.old rest.old at }
    ensures { (t : Going r.now before.old current.old rest.old at) → Reduces r.now.surd t.x z.new result }
{
    let mut after = Poly::zero();
    let mut remains = [0u32; 129];
    take_turns(r, before, current, &mut after, rest, &mut remains, at, z)
}
