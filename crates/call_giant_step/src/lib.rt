// The call `giant_step`: two pairs of any words with their distances, tested, then multiplied and reduced.
#![tactic(auto)]

ghost use Rattle.std.specs.Prelude.{◌≡◌, length};
ghost use Rattle.spec_definitions.specs.Products.{giant_answer, wrong_distance};
ghost use Rattle.ideal_pair.specs.Pair.{words_of};
ghost use Rattle.call_giant_step.specs.GiantSteps.{GiantStepSays};

use base_answers::Answer;
use base_counters::Distance;
use base_ideal::Ideal;
use base_refusals::Refusal;
use call_product::Pair;
use call_product::operands::read_ideals;
use ideal_giant::FARTHEST;
pub use ideal_giant::Shift;
use ideal_giant::step::giant;
use ticket_read::read_ticket;
use walk_state::root::Root;

// The giant step of two ideals: the reduced ideal (Q, P), f and the distance.
#[derive(Clone, Copy)]
pub struct GiantStep {
    pub ideal: Ideal,
    pub shift: Shift,
}

// The number of words handed in, and the giant step or a refusal.
pub type GiantStepAnswer = Answer<Result<GiantStep, Refusal>>;

// A distance is above the largest.
#[tactic(auto, unfolding(spec_definitions::specs::Products::wrong_distance))]
fn far(d1: Distance, d2: Distance) -> bool
    ensures { result ≡ wrong_distance d1.0 d2.0 }
{
    d1 > FARTHEST || d2 > FARTHEST
}

// The giant step of two pairs of any words for a ticket of any words, each tested, and so are the distances.
fn stepped(
    ticket: &[u32],
    x: Pair<'_>,
    d1: Distance,
    y: Pair<'_>,
    d2: Distance,
) -> Result<GiantStep, Refusal>
    ensures { GiantStepSays result (giant_answer ticket.now (words_of x.entry) d1.0 (words_of y.entry) d2.0) }
{
    let t = read_ticket(ticket)?;
    let mut a = Ideal::zeros();
    let mut b = Ideal::zeros();
    read_ideals(&t.surd, x, y, &mut a, &mut b)?;
    if far(d1, d2) {
        return Err(Refusal::Distance);
    }
    let r = Root::new(&t.surd);
    let mut ideal = Ideal::zeros();
    let shift = giant(&r, &a, d1, &b, d2, &mut ideal);
    Ok(GiantStep { ideal, shift })
}

// The giant step of two ideals for a ticket of any words and any length; the pairs are lists of any words and
// any length. The ticket's budget has no effect.
pub fn giant_step(
    ticket: &[u32],
    x: Pair<'_>,
    d1: Distance,
    y: Pair<'_>,
    d2: Distance,
) -> GiantStepAnswer
    ensures words { result.words ≡ length ticket.now }
    ensures says { GiantStepSays result.outcome (giant_answer ticket.now (words_of x.entry) d1.0 (words_of y.entry) d2.0) }
{
    Answer {
        words: ticket.len() as u64,
        outcome: stepped(ticket, x, d1, y, d2),
    }
}
