// The steps of a run: the loop to the first constant Q within a budget.
#![tactic(auto)]

ghost use Rattle.std.specs.Prelude.{◌≡◌};
ghost use Rattle.spec_definitions.specs.Answers.{outcome_of};
ghost use Rattle.base_surd.specs.Surd.{ticket_with};
ghost use Rattle.walk_outcome.specs.Outcome.{meaning};

use base_counters::Budget;
use base_polynomial::Poly;
use walk_ends::found;
use walk_lead::times_factor;
use walk_outcome::Outcome;
use walk_state::Walk;
use walk_stride::{begin_walk, stride_on};

// The steps from index 0 on, against the budget. The loop leaves with the first index from 1 on whose Q is constant.
// The arrays take turns, so that nothing is copied: Q stands in b, c, a and b again, the Q before it in a, b, c and a,
// the remainder in x, y, z and x. The product of 2/lc Q_j, twice the leading coefficient of p_{i − 1}, is reduced once
// in three steps.
pub fn seek(w: &Walk, budget: Budget) -> Outcome
    ensures { meaning result ≡ outcome_of (ticket_with w.now.root.surd budget.steps) }
{
    let mut a = Poly::zero();
    let mut b = Poly::zero();
    let mut c = Poly::zero();
    let mut x = [0u32; 129];
    let mut y = [0u32; 129];
    let mut z = [0u32; 129];
    let mut at = begin_walk(w, &mut a, &mut b, &mut x);
    let q = w.root.surd.field.q as u64;
    let mut twice_lead: u64 = 1;
    let constant = loop {
        if at.index.0 == budget.steps { // Q in b
            return Outcome::Spent(at.index, at.degree); // b and deg p_{b − 1}
        }
        twice_lead = times_factor(twice_lead, w.inverses, &b);
        at = stride_on(w, &a, &b, &x, &mut y, &mut c, at);
        if c.size == 1 {
            break c.c[0];
        }
        if at.index.0 == budget.steps { // Q in c
            return Outcome::Spent(at.index, at.degree);
        }
        twice_lead = times_factor(twice_lead, w.inverses, &c);
        at = stride_on(w, &b, &c, &y, &mut z, &mut a, at);
        if a.size == 1 {
            break a.c[0];
        }
        if at.index.0 == budget.steps { // Q in a
            return Outcome::Spent(at.index, at.degree);
        }
        twice_lead = times_factor(twice_lead, w.inverses, &a) % q;
        at = stride_on(w, &c, &a, &z, &mut x, &mut b, at);
        if b.size == 1 {
            break b.c[0];
        }
    };
    found(w.root.surd.field, at, constant, twice_lead)
}
