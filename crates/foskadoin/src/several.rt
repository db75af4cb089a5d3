// The call `regulators`: its outcomes go into a lent array of 64 numbers, four for each of sixteen places.
ghost use Rattle.std.specs.Prelude.{◌≡◌};
ghost use Rattle.spec_several.specs.Several.{several_answer};
ghost use Rattle.out_several.specs.Places.{plain_places, LeastPlaces};

use engine::regulators::regulators;
use out_several::{SeveralNumbers, put_outcomes};

// The outcomes of a ticket with integer coefficients at its primes.
#[unsafe(no_mangle)]
pub extern "C" fn foskadoin_regulators(ticket: &[u32], out: &mut [u64; 64]) -> SeveralNumbers
    ensures words { result.words ≡ (several_answer ticket.now).words }
    ensures count { result.count ≡ (several_answer ticket.now).count }
    ensures says { out.new ≡ plain_places (several_answer ticket.now).says }
    ensures least { LeastPlaces ticket.now result.count out.new }
{
    put_outcomes(&regulators(ticket), out)
}
