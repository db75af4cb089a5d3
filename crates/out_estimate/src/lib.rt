// An answer of the call `estimate` as plain numbers, laid out as C lays them out.
#![tactic(auto)]

use call_estimate::{EstimateAnswer, Estimated};

// The number of words handed in, the number of a refusal or 0, numerator, denominator and the nearest whole number:
// zeros where it is refused.
#[repr(C)]
#[derive(Clone, Copy)]
pub struct EstimateNumbers {
    pub words: u64,
    pub number: u64,
    pub numerator: u64,
    pub denominator: u64,
    pub nearest: u64,
}

impl From<EstimateAnswer> for EstimateNumbers {
    ghost use Rattle.std.specs.Prelude.{◌≡◌};
    ghost use Rattle.call_estimate.specs.Estimates.{estimate_said};
    ghost use Rattle.out_estimate.specs.Numbers.{estimate_in};

    ghost from_gives = { λ a n. (n.words ≡ a.words) × (estimate_in n ≡ estimate_said a.outcome) };

    fn from(a: EstimateAnswer) -> EstimateNumbers {
        let zero = Estimated {
            numerator: 0,
            denominator: 0,
            nearest: 0,
        };
        let (number, e) = a.numbered(zero);
        EstimateNumbers {
            words: a.words,
            number: u64::from(number),
            numerator: e.numerator,
            denominator: e.denominator,
            nearest: e.nearest,
        }
    }
}
