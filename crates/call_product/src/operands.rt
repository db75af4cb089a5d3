// A ticket and two pairs of any words, tested and read: what a product and a giant step are made of.
ghost use Rattle.std.specs.Prelude.{◌≡◌, ℕ, IfOk};
ghost use Rattle.base_refusals.specs.Number.{refused_by};
ghost use Rattle.base_surd.specs.Surd.{ticket_with};
ghost use Rattle.ideal_pair.specs.Pair.{words_of, Paired};
ghost use Rattle.call_product.specs.Operands.{operands_refusal, pairs_refusal, AreRead};

use base_ideal::Ideal;
use base_refusals::Refusal;
use base_surd::Surd;
use ideal_pair::{Pair, read_ideal};
use ticket_read::read_ticket;

// √D, and two ideals of it.
#[derive(Clone, Copy)]
pub struct Operands {
    pub surd: Surd,
    pub x: Ideal,
    pub y: Ideal,
}

// a and b become the ideals of the pairs x and y, each tested in this order; in a refusal they may hold anything.
pub fn read_ideals(
    s: &Surd,
    x: Pair<'_>,
    y: Pair<'_>,
    a: &mut Ideal,
    b: &mut Ideal,
) -> Result<(), Refusal>
    ensures refused { (k : ℕ) → refused_by result ≡ pairs_refusal (ticket_with s.now k) (words_of x.entry) (words_of y.entry) }
    ensures read { IfOk result (λ _. Paired s.now x.entry.q.now x.entry.p.now a.new × Paired s.now y.entry.q.now y.entry.p.now b.new) }
{
    read_ideal(s, x, a)?;
    read_ideal(s, y, b)
}

// √D of the ticket and the ideals of the two pairs, each tested in this order.
pub fn read_operands(ticket: &[u32], x: Pair<'_>, y: Pair<'_>) -> Result<Operands, Refusal>
    ensures refused { refused_by result ≡ operands_refusal ticket.now (words_of x.entry) (words_of y.entry) }
    ensures read { IfOk result (AreRead ticket.now (words_of x.entry) (words_of y.entry)) }
{
    let t = read_ticket(ticket)?;
    let mut a = Ideal::zeros();
    let mut b = Ideal::zeros();
    read_ideals(&t.surd, x, y, &mut a, &mut b)?;
    Ok(Operands {
        surd: t.surd,
        x: a,
        y: b,
    })
}
