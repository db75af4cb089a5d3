// Products and giant steps for measuring their time: a ticket and two pairs are read once, then the same is
// made again and again.
#![tactic(auto)]

pub mod turns;

ghost use Rattle.std.specs.Prelude.{◌≡◌};
ghost use Rattle.ideal_pair.specs.Pair.{pair_of};
ghost use Rattle.bench_ideals.specs.Turns.{product_turns, giant_turns};

use crate::turns::{giants, products};
use call_product::Pair;
use call_product::operands::read_operands;

// The size of the product's P, made `times` times over; 0 where the ticket or a pair is refused and where `times`
// is 0.
#[unsafe(no_mangle)]
pub extern "C" fn bench_product(
    ticket: &[u32],
    q1: &[u32],
    p1: &[u32],
    q2: &[u32],
    p2: &[u32],
    times: u64,
) -> u64
    ensures { result ≡ product_turns ticket.now (pair_of q1.now p1.now) (pair_of q2.now p2.now) times }
{
    match read_operands(ticket, Pair { q: q1, p: p1 }, Pair { q: q2, p: p2 }) {
        Ok(o) => products(&o.surd, &o.x, &o.y, times),
        Err(_) => 0,
    }
}

// The size of the giant step's P, made `times` times over; 0 where the ticket or a pair is refused and where `times`
// is 0.
#[unsafe(no_mangle)]
pub extern "C" fn bench_giant_step(
    ticket: &[u32],
    q1: &[u32],
    p1: &[u32],
    q2: &[u32],
    p2: &[u32],
    times: u64,
) -> u64
    ensures { result ≡ giant_turns ticket.now (pair_of q1.now p1.now) (pair_of q2.now p2.now) times }
{
    match read_operands(ticket, Pair { q: q1, p: p1 }, Pair { q: q2, p: p2 }) {
        Ok(o) => giants(&o.surd, &o.x, &o.y, times),
        Err(_) => 0,
    }
}
