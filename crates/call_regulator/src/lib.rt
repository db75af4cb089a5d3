// The call `regulator`: the outcome of a ticket of any words. `regulators` has `outcome_of` from here.
#![tactic(auto)]

ghost use Rattle.std.specs.Prelude.{◌≡◌, length};
ghost use Rattle.spec_definitions.specs.Answers.{said, regulator_of};
ghost use Rattle.spec_demands.specs.LeastDegree.{Least};
ghost use Rattle.walk_outcome.specs.Outcome.{meaning};
ghost use Rattle.call_regulator.specs.Regulator.{OutcomeOf};

use base_answers::Answer;
use base_refusals::Refusal;
use ticket_read::{Ticket, read_ticket};
use walk_outcome::Outcome;
use walk_run::run;

// The outcome of words that are read as a ticket or refused: what its walk finds within its budget, or the refusal.
pub fn outcome_of(read: Result<Ticket, Refusal>) -> Outcome
    ensures { OutcomeOf read (meaning result) }
{
    match read {
        Ok(t) => run(&t.surd, t.budget),
        Err(refusal) => refusal.into(),
    }
}

// The regulator of a ticket of any words and any length.
pub fn regulator(ticket: &[u32]) -> Answer<Outcome>
    ensures words { result.words ≡ length ticket.now }
    ensures says { said (meaning result.outcome) ≡ regulator_of ticket.now }
    ensures least { Least ticket.now (meaning result.outcome) }
{
    Answer {
        words: ticket.len() as u64,
        outcome: outcome_of(read_ticket(ticket)),
    }
}
