// The call `ideal_at`: its polynomials go into lent arrays of 129 numbers, with their sizes in the answer.
ghost use Rattle.std.specs.Prelude.{◌≡◌, length};
ghost use Rattle.spec_ideal_at.specs.Halving.{ideal_at_answer};
ghost use Rattle.out_polynomials.specs.IdealsAt.{IdealAtWritten};

use base_counters::Distance;
use engine::at_distance::ideal_at;
use out_polynomials::{IdealNumbers, put_ideal_at};

// The last ideal of the endless walk at a distance of at most y.
#[unsafe(no_mangle)]
pub extern "C" fn foskadoin_ideal_at(
    ticket: &[u32],
    y: u64,
    q: &mut [u32; 129],
    p: &mut [u32; 129],
) -> IdealNumbers
    ensures words { result.words ≡ length ticket.now }
    ensures says { IdealAtWritten result q.new p.new (ideal_at_answer ticket.now y) }
{
    let a = ideal_at(ticket, Distance(y));
    put_ideal_at(a, q, p)
}
