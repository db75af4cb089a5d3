// The nearest whole number to a fraction.
#![tactic(auto)]

ghost use Rattle.std.specs.Prelude.{◌≡◌};
ghost use Rattle.spec_estimate.specs.Estimate.{nearest_of};
ghost use Rattle.spec_estimate.specs.Bounds.{Fits};

// The nearest whole number to a fraction, an exact half going up: twice the remainder is compared with the denominator.
#[tactic(auto, using(crate::specs::Nearest::half_up, crate::specs::Nearest::below_half))]
pub fn nearest(numerator: u64, denominator: u64) -> u64
    requires { Fits numerator denominator }
    ensures { result ≡ nearest_of numerator denominator }
{
    let whole = numerator / denominator;
    let rest = numerator % denominator;
    if 2 * rest >= denominator {
        whole + 1
    } else {
        whole
    }
}
