// The walk from index to index: where it is, its beginning, and one step with its counts, into other arrays or in place.
// Each stands twice: by any field, root and table, and by those of a walk.
#![tactic(auto)]

ghost use Rattle.base_field.specs.Named.{name};
ghost use Rattle.walk_stride.specs.Progress.{BegunWith, GoingBy, TakenBy, TurnedBy, Begun, Going, Taken, Turned};

use base_counters::{Distance, Index};
use base_field::Field;
use base_polynomial::Poly;
use walk_state::Walk;
use walk_step::Step;
use walk_step::step::step;

// How far the walk is: the index i, and the degree of p_{i − 1}.
#[derive(Clone, Copy)]
pub struct Progress {
    pub index: Index,
    pub degree: Distance,
}

// Index 0: the Q before is D, Q is 1 and the remainder d. D is the radicand.
pub fn begin(
    radicand: &Poly,
    d: &[u32; 129],
    before: &mut Poly,
    current: &mut Poly,
    rest: &mut [u32; 129],
) -> Progress
    ensures { BegunWith radicand.now d.now before.new current.new rest.new result }
{
    *before = *radicand;
    current.c = [0u32; 129];
    current.c[0] = 1;
    current.size = 1;
    *rest = *d;
    Progress {
        index: Index(0),
        degree: Distance(0),
    }
}

// One step from three arrays into two others: `remains` and `after` become the next remainder and the next Q.
// A run takes its arrays in turn, so that none is copied.
pub fn stride(
    f: Field,
    inverses: &[u32; 4096],
    twice: &[u32; 129],
    top: usize,
    before: &Poly,
    current: &Poly,
    rest: &[u32; 129],
    remains: &mut [u32; 129],
    after: &mut Poly,
    at: Progress,
) -> Progress
    requires { GoingBy (name f) top inverses.now twice.now before.now current.now rest.now at }
    ensures { TakenBy (name f) top twice.now before.now current.now rest.now remains.new after.new at result }
{
    let size = current.size;
    let s = Step {
        field: f,
        twice,
        before: &before.c,
        current: &current.c,
        rest,
        top,
        size,
        lead_inverse: inverses[current.c[size - 1] as usize],
    };
    after.size = step(&s, remains, &mut after.c);
    Progress {
        index: Index(at.index.0 + 1),
        degree: Distance(at.degree.0 + (top - size) as u64),
    }
}

// One step in place: `before` becomes Q, which stands in `current`, and `current` and `rest` the next Q and
// the next remainder.
pub fn turn(
    f: Field,
    inverses: &[u32; 4096],
    twice: &[u32; 129],
    top: usize,
    before: &mut Poly,
    current: &mut Poly,
    rest: &mut [u32; 129],
    at: Progress,
) -> Progress
    requires { GoingBy (name f) top inverses.now twice.now before.old current.old rest.old at }
    ensures { TurnedBy (name f) top twice.now before.old current.old rest.old before.new current.new rest.new at result }
{
    let mut remains = [0u32; 129];
    let mut after = Poly::zero();
    let to = stride(
        f,
        inverses,
        twice,
        top,
        before,
        current,
        rest,
        &mut remains,
        &mut after,
        at,
    );
    *before = *current;
    *current = after;
    *rest = remains;
    to
}

// A walk's beginning.
pub fn begin_walk(
    w: &Walk,
    before: &mut Poly,
    current: &mut Poly,
    rest: &mut [u32; 129],
) -> Progress
    ensures { Begun w.now before.new current.new rest.new result }
{
    begin(&w.root.surd.radicand, &w.root.d, before, current, rest)
}

// One step of a walk into other arrays.
pub fn stride_on(
    w: &Walk,
    before: &Poly,
    current: &Poly,
    rest: &[u32; 129],
    remains: &mut [u32; 129],
    after: &mut Poly,
    at: Progress,
) -> Progress
    requires { Going w.now before.now current.now rest.now at }
    ensures { Taken w.now before.now current.now rest.now remains.new after.new at result }
{
    let r = &w.root;
    stride(
        r.surd.field,
        w.inverses,
        &r.twice,
        r.top(),
        before,
        current,
        rest,
        remains,
        after,
        at,
    )
}

// One step of a walk in place.
pub fn turn_on(
    w: &Walk,
    before: &mut Poly,
    current: &mut Poly,
    rest: &mut [u32; 129],
    at: Progress,
) -> Progress
    requires { Going w.now before.old current.old rest.old at }
    ensures { Turned w.now before.old current.old rest.old before.new current.new rest.new at result }
{
    let r = &w.root;
    turn(
        r.surd.field,
        w.inverses,
        &r.twice,
        r.top(),
        before,
        current,
        rest,
        at,
    )
}
