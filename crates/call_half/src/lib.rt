// The call `half`: the outcome of half the walk of a ticket of any words.
#![tactic(auto)]

ghost use Rattle.std.specs.Prelude.{◌≡◌, length};
ghost use Rattle.spec_half.specs.Half.{half_said, half_answer};
ghost use Rattle.spec_half.specs.HalfWalk.{LeastHalf};
ghost use Rattle.walk_half.specs.Outcome.{half_meaning};
ghost use Rattle.call_half.specs.Half.{HalfOutcomeOf};

use base_answers::Answer;
use base_refusals::Refusal;
use ticket_read::{Ticket, read_ticket};
pub use walk_half::HalfOutcome;
use walk_half::run_half;

// The number of words handed in, and one of three outcomes.
pub type HalfAnswer = Answer<HalfOutcome>;

// The outcome of words that are read as a ticket or refused: what half its walk finds within its budget, or the
// refusal.
fn half_outcome(read: Result<Ticket, Refusal>) -> HalfOutcome
    ensures { HalfOutcomeOf read (half_meaning result) }
{
    match read {
        Ok(t) => run_half(&t.surd, t.budget),
        Err(refusal) => refusal.into(),
    }
}

// Half the walk of a ticket of any words and any length.
pub fn half(ticket: &[u32]) -> HalfAnswer
    ensures words { result.words ≡ length ticket.now }
    ensures says { half_said (half_meaning result.outcome) ≡ half_answer ticket.now }
    ensures least { LeastHalf ticket.now (half_meaning result.outcome) }
{
    Answer {
        words: ticket.len() as u64,
        outcome: half_outcome(read_ticket(ticket)),
    }
}
