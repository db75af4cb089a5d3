// One record of a listing: its ideal and its mirror, written as the record's words.
#![tactic(auto)]

ghost use Rattle.std.specs.Prelude.{◌≡◌, ℕ, ◌+◌, ◌/◌, ◌<◌, ◌≤◌, length, get_or};
ghost use Rattle.spec_arithmetic.specs.Words.{values};
ghost use Rattle.spec_definitions.specs.Ticket.{budgets, degrees};
ghost use Rattle.base_field.specs.Named.{name as name_of};
ghost use Rattle.base_places.specs.Places.{Within};
ghost use Rattle.base_polynomial.specs.Whole.{Held};
ghost use Rattle.walk_state.specs.Walk.{name, top};
ghost use Rattle.listing_words.specs.Stored.{stored};
ghost use Rattle.listing_record.specs.Entry.{IsIdeal, record_with, record_from};

use base_counters::{Distance, Index};
use base_field::Field;
use base_ideal::{Ideal, ideal_of};
use base_polynomial::Poly;
use listing_words::put_record;
use walk_state::Walk;
use walk_stride::Progress;

// z becomes the ideal of Q, which is `current`, and P = d − rest, each of at most `places` places. Each coefficient fits
// into a word.
fn ideal_of_places(
    f: Field,
    places: usize,
    d: &[u32; 129],
    rest: &[u32; 129],
    current: &Poly,
    z: &mut Ideal,
)
    requires current { Held f current.now × (0 < current.now.size) }
    requires within { (places ≤ 129) × Within (name_of f) d.now places × Within (name_of f) rest.now places }
    ensures is { IsIdeal (name_of f) d.now rest.now current.now z.new }
    ensures fits { ((i : ℕ) → get_or z.new.q.c i 0 < values) × ((i : ℕ) → get_or z.new.p.c i 0 < values) }
{
    ideal_of(f, d, places, current, rest, z);
}

// The record of Q, which is `current`, and P = d − rest, stored from the start of the list on; r is the regulator. The mirror
// is r less the distance plus deg Q, which is one less than the size, as Q has no zero at its end.
pub fn write_record(
    f: Field,
    n: usize,
    d: &[u32; 129],
    rest: &[u32; 129],
    current: &Poly,
    index: Index,
    distance: Distance,
    r: Distance,
    out: &mut [u32],
)
    requires le_n { (2 ≤ n) × (n ≤ 64) × (n + 4 ≤ length out.old) }
    requires within { Within (name_of f) d.now (n / 2 + 1) × Within (name_of f) rest.now (n / 2 + 1) }
    requires current { Held f current.now × (0 < current.now.size) }
    requires counts { (index.0 < budgets) × (distance.0 ≤ r.0) × (r.0 ≤ degrees) }
    ensures { out.new ≡ stored out.old 0 (record_with (name_of f) n r.0 index.0 distance.0 d.now rest.now current.now) }
{
    let mut ideal = Ideal::zeros();
    ideal_of_places(f, n / 2 + 1, d, rest, current, &mut ideal);
    let mirror = Distance(r.0 - distance.0 + (current.size as u64 - 1));
    put_record(out, n, index, distance, mirror, &ideal);
}

// The record of index i + 1, where the walk stands at index i: of Q, which is `current`, and P = d − rest; its distance is
// the degree of p_{i − 1}, and r is the regulator.
#[tactic(auto, using(crate::specs::Places::rest_places, crate::specs::Places::root_places), unfolding(crate::specs::Entry::record_from))]
pub fn write_record_of_walk(
    w: &Walk,
    current: &Poly,
    rest: &[u32; 129],
    at: Progress,
    r: Distance,
    out: &mut [u32],
)
    requires words { (w.now.root.surd.n ≤ 64) × (w.now.root.surd.n + 4 ≤ length out.old) }
    requires current { Held w.now.root.surd.field current.now × (0 < current.now.size) }
    requires rest { Within (name w.now) rest.now (top w.now) }
    requires counts { (at.index.0 + 1 < budgets) × (at.degree.0 ≤ r.0) × (r.0 ≤ degrees) }
    ensures { out.new ≡ stored out.old 0 (record_from w.now r.0 current.now rest.now at) }
{
    let index = Index(at.index.0 + 1);
    let distance = Distance(at.degree.0);
    write_record(
        w.root.surd.field,
        w.root.surd.n,
        &w.root.d,
        rest,
        current,
        index,
        distance,
        r,
        out,
    );
}
