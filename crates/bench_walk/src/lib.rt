// The runs for measuring the time of a step: so many steps of a ticket's walk with the product of 2/lc Q_j, past every
// constant Q; so many with the tests of half the walk after each, past every middle.
#![tactic(auto)]

pub mod advance;
pub mod half;

ghost use Rattle.std.specs.Prelude.{◌≡◌, ◌≤◌, IfSome, IfNone};
ghost use Rattle.bench_walk.specs.Steps.{degree_after, product_after, Asked, NotAsked};

use crate::advance::{Made, run_on};
use crate::half::{Tried, half_on};
use base_counters::Budget;
use base_surd::Surd;
use ticket_read::read_ticket;

// How many budgets there are: 2²⁸.
const BUDGETS: u64 = 268435456;

// √D of the ticket, unless it is refused or 2²⁸ steps or more are asked for. The ticket's budget has no part.
fn asked(ticket: &[u32], steps: u64) -> Option<Surd>
    ensures some { IfSome result (Asked ticket.now steps) }
    ensures none { IfNone result (NotAsked ticket.now steps) }
{
    if BUDGETS <= steps {
        return None;
    }
    Some(read_ticket(ticket).ok()?.surd)
}

// The degree of p_{steps − 1} and the product of 2/lc Q_j for all j below `steps`, or 0 and 0 where the ticket is
// refused or 2²⁸ steps or more are asked for.
#[unsafe(no_mangle)]
pub extern "C" fn bench_walk(ticket: &[u32], steps: u64) -> Made
    ensures degree { result.degree ≡ degree_after ticket.now steps }
    ensures product { result.product ≡ product_after ticket.now steps }
{
    match asked(ticket, steps) {
        Some(s) => run_on(&s, Budget { steps }),
        None => Made::default(),
    }
}

// The degree of p_{steps − 1}, or 0 as above, and how often the tests said that half the walk stops.
#[unsafe(no_mangle)]
pub extern "C" fn bench_half(ticket: &[u32], steps: u64) -> Tried
    ensures degree { result.degree ≡ degree_after ticket.now steps }
    ensures few { result.stops ≤ steps }
{
    match asked(ticket, steps) {
        Some(s) => half_on(&s, Budget { steps }),
        None => Tried::default(),
    }
}
