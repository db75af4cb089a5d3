// The call `product`: two pairs of any words, tested, then multiplied.
#![tactic(auto)]

pub mod operands;

ghost use Rattle.std.specs.Prelude.{◌≡◌, length};
ghost use Rattle.spec_definitions.specs.Products.{product_answer};
ghost use Rattle.ideal_pair.specs.Pair.{words_of};
ghost use Rattle.call_product.specs.Products.{ProductSays};

use crate::operands::read_ideals;
use base_answers::Answer;
use base_ideal::Ideal;
use base_polynomial::Poly;
use base_refusals::Refusal;
pub use ideal_pair::Pair;
use ticket_read::read_ticket;

// The product of two ideals: S, and the ideal (Q, P).
#[derive(Clone, Copy)]
pub struct IdealProduct {
    pub s: Poly,
    pub ideal: Ideal,
}

// The number of words handed in, and the product or a refusal.
pub type ProductAnswer = Answer<Result<IdealProduct, Refusal>>;

// The product of two pairs of any words for a ticket of any words, each tested.
fn multiplied(ticket: &[u32], x: Pair<'_>, y: Pair<'_>) -> Result<IdealProduct, Refusal>
    ensures { ProductSays result (product_answer ticket.now (words_of x.entry) (words_of y.entry)) }
{
    let t = read_ticket(ticket)?;
    let mut a = Ideal::zeros();
    let mut b = Ideal::zeros();
    read_ideals(&t.surd, x, y, &mut a, &mut b)?;
    let mut s = Poly::zero();
    let mut ideal = Ideal::zeros();
    ideal_product::product(&t.surd, &a, &b, &mut s, &mut ideal);
    Ok(IdealProduct { s, ideal })
}

// The product of two ideals for a ticket of any words and any length; the pairs are lists of any words and
// any length. The ticket's budget has no effect.
pub fn product(ticket: &[u32], x: Pair<'_>, y: Pair<'_>) -> ProductAnswer
    ensures words { result.words ≡ length ticket.now }
    ensures says { ProductSays result.outcome (product_answer ticket.now (words_of x.entry) (words_of y.entry)) }
{
    Answer {
        words: ticket.len() as u64,
        outcome: multiplied(ticket, x, y),
    }
}
