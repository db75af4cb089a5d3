// The call `ideal_at`: the last ideal of the endless walk at a distance of at most y, for a ticket of any words, with its
// distance and the distance of the next.
#![tactic(auto)]

ghost use Rattle.std.specs.Prelude.{◌≡◌, length};
ghost use Rattle.spec_ideal_at.specs.Halving.{ideal_at_answer};
ghost use Rattle.call_ideal_at.specs.IdealsAt.{IdealAtSays};

use base_answers::Answer;
use base_counters::Distance;
use base_ideal::Ideal;
use base_refusals::Refusal;
use ideal_at::ideal_below;
use ideal_climb::next_distance;
use ideal_giant::FARTHEST;
use ticket_read::read_ticket;

// The ideal (Q, P) at or below a distance, its own distance and that of the next.
#[derive(Clone, Copy)]
pub struct IdealAt {
    pub ideal: Ideal,
    pub distance: Distance,
    pub next: Distance,
}

// The number of words handed in, and the ideal or a refusal.
pub type IdealAtAnswer = Answer<Result<IdealAt, Refusal>>;

// The ideal at or below the distance y for a ticket of any words, which is tested, and so is y.
fn below(ticket: &[u32], y: Distance) -> Result<IdealAt, Refusal>
    ensures { IdealAtSays result (ideal_at_answer ticket.now y.0) }
{
    let t = read_ticket(ticket)?;
    if y > FARTHEST {
        return Err(Refusal::Distance);
    }
    let mut ideal = Ideal::zeros();
    let distance = ideal_below(&t.surd, y, &mut ideal);
    let next = next_distance(&t.surd, ideal.q.size, distance);
    Ok(IdealAt {
        ideal,
        distance,
        next,
    })
}

// The ideal at or below the distance y for a ticket of any words and any length. The ticket's budget has no effect.
pub fn ideal_at(ticket: &[u32], y: Distance) -> IdealAtAnswer
    ensures words { result.words ≡ length ticket.now }
    ensures says { IdealAtSays result.outcome (ideal_at_answer ticket.now y.0) }
{
    Answer {
        words: ticket.len() as u64,
        outcome: below(ticket, y),
    }
}
