// The call `estimate`: the estimate of the class number, for a ticket of any words, as a fraction that is not reduced and
// as the nearest whole number.
#![tactic(auto)]

ghost use Rattle.std.specs.Prelude.{◌≡◌, length};
ghost use Rattle.spec_definitions.specs.Ticket.{genus};
ghost use Rattle.spec_estimate.specs.Estimate.{numerator_of, denominator_of, estimate_is, estimate_answer};
ghost use Rattle.call_estimate.specs.Estimates.{Small, estimate_said};

use base_answers::Answer;
use base_refusals::Refusal;
use estimate_counts::{Counts, count_values};
use estimate_fraction::nearest;
use ticket_read::read_ticket;

// The largest q and the largest n that are estimated: for these 64 bits are enough.
const MOST_ELEMENTS: u32 = 13;

const MOST_DEGREE: usize = 8;

// The fraction, not reduced, and the nearest whole number.
#[derive(Clone, Copy)]
pub struct Estimated {
    pub numerator: u64,
    pub denominator: u64,
    pub nearest: u64,
}

// The number of words handed in, and the estimate or a refusal.
pub type EstimateAnswer = Answer<Result<Estimated, Refusal>>;

// The fraction for the field of q elements and a D of degree n with these counts.
fn fraction(q: u32, n: usize, counts: Counts) -> Estimated
    requires { Small q n counts }
    ensures { estimate_said (Ok result) ≡ estimate_is (numerator_of q (genus n) counts.squares counts.non_squares) (denominator_of q counts.squares counts.non_squares) }
{
    let squares = counts.squares;
    let non_squares = counts.non_squares;
    let numerator = (q as u64).pow(n as u32 / 2 + squares + non_squares);
    let first = (q as u64 - 1).pow(squares + 1);
    let second = (q as u64 + 1).pow(non_squares);
    let denominator = first * second;
    Estimated {
        numerator,
        denominator,
        nearest: nearest(numerator, denominator),
    }
}

// The estimate, where no test of the ticket applies and q and n are not above the largest.
fn estimate_of(ticket: &[u32]) -> Result<Estimated, Refusal>
    ensures { estimate_said result ≡ estimate_answer ticket.now }
{
    let surd = read_ticket(ticket)?.surd;
    if surd.field.q > MOST_ELEMENTS || surd.n > MOST_DEGREE {
        return Err(Refusal::Size);
    }
    let counts = count_values(surd.field, &surd.radicand);
    Ok(fraction(surd.field.q, surd.n, counts))
}

// The estimate for a ticket of any words and any length. The ticket's budget has no effect.
pub fn estimate(ticket: &[u32]) -> EstimateAnswer
    ensures words { result.words ≡ length ticket.now }
    ensures says { estimate_said result.outcome ≡ estimate_answer ticket.now }
{
    Answer {
        words: ticket.len() as u64,
        outcome: estimate_of(ticket),
    }
}
