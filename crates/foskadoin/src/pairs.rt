// The calls `product` and `giant_step`: their polynomials go into lent arrays of 129 numbers, with their
// sizes in the answer.
ghost use Rattle.std.specs.Prelude.{◌≡◌, length};
ghost use Rattle.spec_definitions.specs.Products.{product_answer, giant_answer};
ghost use Rattle.call_product.specs.Products.{pair_of};
ghost use Rattle.out_polynomials.specs.GiantSteps.{GiantStepWritten};
ghost use Rattle.out_polynomials.specs.Products.{ProductWritten};

use base_counters::Distance;
use engine::Pair;
use engine::giant_step::giant_step;
use engine::product::product;
use out_polynomials::{GiantStepNumbers, ProductNumbers, put_giant_step, put_product};

// The product of two ideals.
#[unsafe(no_mangle)]
pub extern "C" fn foskadoin_product(
    ticket: &[u32],
    q1: &[u32],
    p1: &[u32],
    q2: &[u32],
    p2: &[u32],
    s: &mut [u32; 129],
    q: &mut [u32; 129],
    p: &mut [u32; 129],
) -> ProductNumbers
    ensures words { result.words ≡ length ticket.now }
    ensures says { ProductWritten result s.new q.new p.new (product_answer ticket.now (pair_of q1.now p1.now) (pair_of q2.now p2.now)) }
{
    let x = Pair { q: q1, p: p1 };
    let y = Pair { q: q2, p: p2 };
    let a = product(ticket, x, y);
    put_product(a, s, q, p)
}

// The giant step of two ideals with their distances.
#[unsafe(no_mangle)]
pub extern "C" fn foskadoin_giant_step(
    ticket: &[u32],
    q1: &[u32],
    p1: &[u32],
    d1: u64,
    q2: &[u32],
    p2: &[u32],
    d2: u64,
    q: &mut [u32; 129],
    p: &mut [u32; 129],
) -> GiantStepNumbers
    ensures words { result.words ≡ length ticket.now }
    ensures says { GiantStepWritten result q.new p.new (giant_answer ticket.now (pair_of q1.now p1.now) d1 (pair_of q2.now p2.now) d2) }
{
    let x = Pair { q: q1, p: p1 };
    let y = Pair { q: q2, p: p2 };
    let a = giant_step(ticket, x, Distance(d1), y, Distance(d2));
    put_giant_step(a, q, p)
}
