// The call `listing`: the outcome first, then the records into the lent list where it is long enough. What
// the walk starts from is prepared once, for the run and for the pass that writes.
#![tactic(auto)]

ghost use Rattle.std.specs.Prelude.{◌≡◌, List, ℕ, length};
ghost use Rattle.spec_definitions.specs.Answers.{said, outcome_of};
ghost use Rattle.spec_definitions.specs.Listing.{listing_from, listing_answer};
ghost use Rattle.spec_demands.specs.LeastDegree.{Least};
ghost use Rattle.base_surd.specs.Surd.{ticket_with};
ghost use Rattle.walk_outcome.specs.Outcome.{meaning};
ghost use Rattle.listing_found.specs.Answers.{Answers};
ghost use Rattle.call_regulator.specs.Regulator.{IsReadAs};

use base_answers::Answer;
use base_refusals::Refusal;
use listing_found::list_found;
use ticket_read::{Ticket, read_ticket};
use walk_outcome::Outcome;
use walk_run::search;
use walk_state::Walk;

// The listing of a ticket that is not refused.
fn listing_of(t: &Ticket, out: &mut [u32]) -> Outcome
    ensures { Answers (listing_from (ticket_with t.now.surd t.now.budget.steps) (outcome_of (ticket_with t.now.surd t.now.budget.steps)) out.old) (meaning result) out.new }
{
    let mut inverses = [0u32; 4096];
    let w = Walk::new(&t.surd, &mut inverses);
    match search(&w, t.budget) {
        Ok(found) => list_found(&found, out),
        Err(outcome) => outcome,
    }
}

// The listing of words that are read as a ticket or refused.
fn listing_outcome(read: Result<Ticket, Refusal>, out: &mut [u32]) -> Outcome
    ensures { (w : List ℕ) → IsReadAs w read → Answers (listing_answer w out.old) (meaning result) out.new }
{
    match read {
        Ok(t) => listing_of(&t, out),
        Err(refusal) => refusal.into(),
    }
}

// The listing of a ticket of any words and any length, in a lent list of any length.
pub fn listing(ticket: &[u32], out: &mut [u32]) -> Answer<Outcome>
    ensures words { result.words ≡ length ticket.now }
    ensures says { said (meaning result.outcome) ≡ (listing_answer ticket.now out.old).says }
    ensures list { out.new ≡ (listing_answer ticket.now out.old).list }
    ensures least { Least ticket.now (meaning result.outcome) }
{
    Answer {
        words: ticket.len() as u64,
        outcome: listing_outcome(read_ticket(ticket), out),
    }
}
