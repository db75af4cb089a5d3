// The call `estimate`: the estimate of the class number of a ticket.
ghost use Rattle.std.specs.Prelude.{◌≡◌, length};
ghost use Rattle.spec_estimate.specs.Estimate.{estimate_answer};
ghost use Rattle.out_estimate.specs.Numbers.{estimate_in};

use engine::estimate::estimate;
use out_estimate::EstimateNumbers;

// The estimate of the class number.
#[unsafe(no_mangle)]
pub extern "C" fn foskadoin_estimate(ticket: &[u32]) -> EstimateNumbers
    ensures words { result.words ≡ length ticket.now }
    ensures says { estimate_in result ≡ estimate_answer ticket.now }
{
    EstimateNumbers::from(estimate(ticket))
}
