// The steps of half the walk: the loop to the middle of the walk within a budget.
ghost use Rattle.std.specs.Prelude.{◌≡◌};
ghost use Rattle.spec_half.specs.Half.{half_of};
ghost use Rattle.base_surd.specs.Surd.{ticket_with};
ghost use Rattle.walk_half.specs.Outcome.{half_meaning};

use crate::HalfOutcome;
use crate::ends::ending;
use base_counters::Budget;
use base_polynomial::Poly;
use walk_middle::stops;
use walk_state::Walk;
use walk_stride::{begin_walk, stride_on};

// The steps from index 0 on, each followed by the tests at the index before the one that it starts from, against
// the budget. The loop leaves with the test that holds first. No step is made twice: the remainder that the test of P
// asks for is that of the next step, so that one step more is made than indices are tried. After the first step there
// is no index to try, and neither test holds: D, which stands before Q_0 = 1, is longer than it, and the remainders d
// and 0 differ.
// The arrays take turns, so that nothing is copied: Q stands in b, c, a and b again, the Q before it in a, b, c and a,
// the remainder in x, y, z and x. So do the counts, in `at`, `second` and `third`: a copy right after a step would
// wait for what the step has stored.
pub fn seek_middle(w: &Walk, budget: Budget) -> HalfOutcome
    ensures { half_meaning result ≡ half_of (ticket_with w.now.root.surd budget.steps) }
{
    let mut a = Poly::zero();
    let mut b = Poly::zero();
    let mut c = Poly::zero();
    let mut x = [0u32; 129];
    let mut y = [0u32; 129];
    let mut z = [0u32; 129];
    let mut at = begin_walk(w, &mut a, &mut b, &mut x);
    let (by, size) = loop {
        let second = stride_on(w, &a, &b, &x, &mut y, &mut c, at);
        if let Some(by) = stops(w, budget.steps, &a, &b, &x, &y, at) { // Q in b
            break (by, b.size);
        }
        let third = stride_on(w, &b, &c, &y, &mut z, &mut a, second);
        if let Some(by) = stops(w, budget.steps, &b, &c, &y, &z, second) { // Q in c
            at = second;
            break (by, c.size);
        }
        at = stride_on(w, &c, &a, &z, &mut x, &mut b, third);
        if let Some(by) = stops(w, budget.steps, &c, &a, &z, &x, third) { // Q in a
            at = third;
            break (by, a.size);
        }
    };
    ending(w.root.top(), size, at, Some(by))
}
