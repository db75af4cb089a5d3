// The steps of the convergents along the walk. The two last convergents of each kind stand in a pair of
// lists, and each step adds a multiple of the one to the other.
ghost use Rattle.std.specs.Prelude.{◌≡◌, ℕ, ◌+◌, ◌-◌, ◌<◌, ◌≤◌, get_or};
ghost use Rattle.base_places.specs.Places.{Places};
ghost use Rattle.base_polynomial.specs.declared.Poly.{Poly};
ghost use Rattle.walk_step.specs.Step.{step_quo, Division};
ghost use Rattle.walk_state.specs.Walk.{name, top};
ghost use Rattle.walk_stride.specs.Walked.{Walked};
ghost use Rattle.unit_recurrence.specs.Pairs.{Pairs};

use base_polynomial::Poly;
use unit_combine::pair::fold;
use walk_run::FoundWalk;
use walk_state::Walk;
use walk_step::step::quotient;
use walk_stride::{Progress, begin_walk, turn_on};

// The partial quotient, of twice − rest by Q.
fn partial(w: &Walk, current: &Poly, rest: &[u32; 129]) -> Poly
    requires size_nonzero { (0 < current.now.size) × (current.now.size ≤ top w.now) }
    requires division { Division (name w.now) (top w.now) current.now.size w.now.root.twice current.now.c rest.now }
    ensures size { result.size ≡ top w.now + 1 - current.now.size }
    ensures places { Places result.c (λ i. get_or (step_quo (name w.now) w.now.root.twice current.now.c rest.now) i 0) }
{
    let top = w.root.top();
    let size = current.size;
    let lead_inverse = w.inverses[current.c[size - 1] as usize];
    let mut c = [0u32; 129];
    quotient(
        w.root.surd.field,
        lead_inverse,
        &w.root.twice,
        rest,
        top,
        &current.c,
        size,
        &mut c,
    );
    Poly {
        c,
        size: top + 1 - size,
    }
}

// One step of the convergents on the way to m: a times the last ones is added to those before them, in as many
// places as the next ones have.
fn advance(
    w: &FoundWalk,
    current: &Poly,
    rest: &[u32; 129],
    at: Progress,
    p: &mut [u32],
    s: &mut [u32],
    x: &mut [u32],
    y: &mut [u32],
)
    requires index_below { at.index.0 < w.now.m.0 }
    requires walked { (before : Poly) × Walked w.now.walk.now before current.now rest.now at }
    requires pairs { Pairs w.now.walk.now w.now.m.0 at.index.0 p.old s.old x.old y.old }
    ensures { Pairs w.now.walk.now w.now.m.0 (at.index.0 + 1) p.new s.new x.new y.new }
{
    let f = w.walk.root.surd.field;
    let a = partial(w.walk, current, rest);
    let left = w.m.0 - at.index.0;
    let end = at.degree.0 as usize + a.size;
    fold(f, &a, left, &mut p[..end], &mut x[..end]);
    fold(f, &a, left, &mut s[..end], &mut y[..end]);
}

// The steps from index 0 to m. The lists have as many places as p_{m−1} has coefficients.
pub fn steps(w: &FoundWalk, p: &mut [u32], s: &mut [u32], x: &mut [u32], y: &mut [u32])
    requires { Pairs w.now.walk.now w.now.m.0 0 p.old s.old x.old y.old }
    ensures { Pairs w.now.walk.now w.now.m.0 w.now.m.0 p.new s.new x.new y.new }
{
    let mut before = Poly::zero();
    let mut current = Poly::zero();
    let mut rest = [0u32; 129];
    let mut at = begin_walk(w.walk, &mut before, &mut current, &mut rest);
    while at.index < w.m {
        advance(w, &current, &rest, at, p, s, x, y);
        at = turn_on(w.walk, &mut before, &mut current, &mut rest, at);
    }
}
