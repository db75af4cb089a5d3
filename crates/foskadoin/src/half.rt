// The call `half`: half the walk of a ticket.
ghost use Rattle.std.specs.Prelude.{◌≡◌, length};
ghost use Rattle.spec_half.specs.Half.{half_answer};
ghost use Rattle.out_numbers.specs.Numbers.{Plain};
ghost use Rattle.out_half.specs.Least.{LeastHalfPlain};

use engine::half::half;
use out_half::half_numbers;
use out_numbers::Numbers;

// The regulator of a ticket by half its walk.
#[unsafe(no_mangle)]
pub extern "C" fn foskadoin_half(ticket: &[u32]) -> Numbers
    ensures words { result.words ≡ length ticket.now }
    ensures says { Plain (half_answer ticket.now) result.number result.first result.second result.third }
    ensures least { LeastHalfPlain ticket.now result.number result.first result.second }
{
    half_numbers(half(ticket))
}
