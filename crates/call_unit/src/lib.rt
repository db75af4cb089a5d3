// The call `unit`: the outcome first, then the unit into the four lent lists where each is long enough.
// Nothing is written before R is known. What the walk starts from is prepared once, for the run and for the
// pass that writes.
#![tactic(auto)]

ghost use Rattle.std.specs.Prelude.{◌≡◌, length};
ghost use Rattle.spec_definitions.specs.Answers.{said, outcome_of};
ghost use Rattle.spec_definitions.specs.Units.{unit_from, unit_answer};
ghost use Rattle.spec_demands.specs.LeastAnswers.{LeastWritten};
ghost use Rattle.base_surd.specs.Surd.{ticket_with};
ghost use Rattle.walk_outcome.specs.Outcome.{meaning};
ghost use Rattle.unit_room.specs.Room.{lists};
ghost use Rattle.unit_found.specs.Answers.{Answers};

use base_answers::Answer;
use ticket_read::{Ticket, read_ticket};
use unit_found::unit_found;
use walk_outcome::Outcome;
use walk_run::search;
use walk_state::Walk;

// The unit of a ticket that is not refused.
fn unit_of(t: &Ticket, p: &mut [u32], s: &mut [u32], x: &mut [u32], y: &mut [u32]) -> Outcome
    ensures { Answers (unit_from (ticket_with t.now.surd t.now.budget.steps) (outcome_of (ticket_with t.now.surd t.now.budget.steps)) (lists p.old s.old x.old y.old)) (meaning result) (lists p.new s.new x.new y.new) }
{
    let mut inverses = [0u32; 4096];
    let w = Walk::new(&t.surd, &mut inverses);
    match search(&w, t.budget) {
        Ok(found) => unit_found(&found, p, s, x, y),
        Err(outcome) => outcome,
    }
}

// The unit of a ticket of any words and any length, in four lent lists of any lengths.
pub fn unit(
    ticket: &[u32],
    p: &mut [u32],
    s: &mut [u32],
    x: &mut [u32],
    y: &mut [u32],
) -> Answer<Outcome>
    ensures words { result.words ≡ length ticket.now }
    ensures says { said (meaning result.outcome) ≡ (unit_answer ticket.now (lists p.old s.old x.old y.old)).says }
    ensures lists { lists p.new s.new x.new y.new ≡ (unit_answer ticket.now (lists p.old s.old x.old y.old)).lists }
    ensures least { LeastWritten ticket.now (meaning result.outcome) (lists p.new s.new x.new y.new) }
{
    let outcome = match read_ticket(ticket) {
        Ok(t) => unit_of(&t, p, s, x, y),
        Err(refusal) => refusal.into(),
    };
    Answer {
        words: ticket.len() as u64,
        outcome,
    }
}
