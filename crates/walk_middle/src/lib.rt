// The tests of half the walk at an index i, after the step from Q_{i+1} to Q_{i+2}: whether Q_{i+1} is a constant
// times Q_i, whether P_{i+1} = P_{i+2}, which the remainders tell, whether the budget is spent.
#![tactic(auto)]

ghost use Rattle.std.specs.Prelude.{◌≡◌, ◌<◌, ◌≤◌};
ghost use Rattle.spec_sentences.specs.Tests.{Tests};
ghost use Rattle.base_field.specs.Named.{name};
ghost use Rattle.base_places.specs.Places.{Within};
ghost use Rattle.walk_middle.specs.Middle.{Proportional, Tested, Stops};

use base_field::Field;
use base_polynomial::Poly;
use walk_state::Walk;
use walk_stride::Progress;

// By which test half the walk stops.
#[derive(Clone, Copy)]
pub enum Stop {
    ByQ,
    ByP,
    Budget,
}

// Whether x is a constant times y, both of one size: each times the other's leading coefficient is the same.
// q − y[i] stands for −y[i], so that each place takes one reduction; two products, each at most 4,095², are together
// below 2³².
fn proportional(f: Field, x: &Poly, y: &Poly) -> bool
    requires sizes { (0 < y.now.size) × (y.now.size ≤ 129) × (x.now.size ≡ y.now.size) }
    requires within { Within (name f) x.now.c y.now.size × Within (name f) y.now.c y.now.size }
    ensures { Tests result (Proportional (name f) x.now.c y.now.c y.now.size) }
{
    let q = f.q;
    let size = y.size;
    let a = x.c[size - 1];
    let b = y.c[size - 1];
    for i in 0..size - 1 {
        if f.reduce(x.c[i] * b + (q - y.c[i]) * a) != 0 {
            return false;
        }
    }
    true
}

// Whether the Q in x is a constant times the one in y.
fn multiple(f: Field, x: &Poly, y: &Poly) -> bool
    requires size_nonzero { (0 < y.now.size) × (y.now.size ≤ 129) }
    requires within { Within (name f) x.now.c x.now.size × Within (name f) y.now.c y.now.size }
    ensures { Tests result ((x.now.size ≡ y.now.size) × Proportional (name f) x.now.c y.now.c y.now.size) }
{
    x.size == y.size && proportional(f, x, y)
}

// What the tests say at the index i before that of `at`, in the request's order: that of Q, then that of P. Last is
// the budget b, spent where the index of `at` is b: the indices 0 to b − 1 are then tried. Q_i is in `before`, Q_{i+1}
// in `current`; `rest` and `remains` are the remainders before and after the step from `at` on, which are 0 from g + 2
// on. None: half the walk goes on.
pub fn stops(
    w: &Walk,
    budget: u64,
    before: &Poly,
    current: &Poly,
    rest: &[u32; 129],
    remains: &[u32; 129],
    at: Progress,
) -> Option<Stop>
    requires { Tested w.now before.now current.now rest.now remains.now }
    ensures { Stops w.now budget before.now current.now rest.now remains.now at result }
{
    let top = w.root.top();
    if multiple(w.root.surd.field, before, current) {
        Some(Stop::ByQ)
    } else if rest[..top] == remains[..top] {
        Some(Stop::ByP)
    } else if at.index.0 == budget {
        Some(Stop::Budget)
    } else {
        None
    }
}
