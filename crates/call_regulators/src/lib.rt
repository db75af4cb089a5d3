// The call `regulators`: the outcomes of a ticket with integer coefficients at its primes.
#![tactic(auto)]

ghost use Rattle.std.specs.Prelude.{◌≡◌, map, ◌<◌};
ghost use Rattle.spec_definitions.specs.Answers.{said};
ghost use Rattle.spec_several.specs.Several.{several_refusal, several_answer};
ghost use Rattle.base_refusals.specs.Number.{number_of};
ghost use Rattle.call_regulators.specs.Regulators.{outcomes, Answers, LeastEach};

use base_refusals::Refusal;
use base_words::value;
use call_regulator::outcome_of;
use ticket_several::job::read_job;
use ticket_several::shape::several_refusal;
use walk_outcome::Outcome;

// What a place past the last outcome holds: no outcome is refused by 0.
const NO_OUTCOME: Outcome = Outcome::Refused(0);

// What the call answers: the number of words handed in, how many outcomes there are, and sixteen places for
// them; those past the count hold Refused(0).
#[derive(Clone, Copy)]
pub struct SeveralAnswer {
    pub words: u64,
    pub count: u64,
    pub places: [Outcome; 16],
}

// The outcomes at the ticket's primes, in its order: each is that of the single job at the prime.
fn at_primes(ticket: &[u32]) -> SeveralAnswer
    requires { several_refusal ticket.now ≡ 0 }
    ensures { Answers ticket.now result }
{
    let mut places = [NO_OUTCOME; 16];
    // before the primes are n, n + 1 coefficients and the budget, after them the end word
    let first = value(ticket[0]) as usize + 3;
    let primes = &ticket[first..ticket.len() - 1];
    for (i, prime) in primes.iter().enumerate() {
        places[i] = outcome_of(read_job(value(*prime), ticket));
    }
    SeveralAnswer {
        words: ticket.len() as u64,
        count: primes.len() as u64,
        places,
    }
}

// The only outcome of a refused ticket.
fn refused_ticket(refusal: Refusal, ticket: &[u32]) -> SeveralAnswer
    requires { number_of refusal ≡ several_refusal ticket.now }
    ensures { Answers ticket.now result }
{
    let mut places = [NO_OUTCOME; 16];
    places[0] = refusal.into();
    SeveralAnswer {
        words: ticket.len() as u64,
        count: 1,
        places,
    }
}

// The outcomes of a ticket of any words and any length.
pub fn regulators(ticket: &[u32]) -> SeveralAnswer
    ensures words { result.words ≡ (several_answer ticket.now).words }
    ensures count { result.count ≡ (several_answer ticket.now).count }
    ensures says { map said (outcomes result) ≡ (several_answer ticket.now).says }
    ensures least { LeastEach ticket.now (outcomes result) }
{
    match several_refusal(ticket) {
        Ok(()) => at_primes(ticket),
        Err(refusal) => refused_ticket(refusal, ticket),
    }
}
