// An answer of half the walk as plain numbers.
#![tactic(auto)]

ghost use Rattle.std.specs.Prelude.{◌≡◌};
ghost use Rattle.spec_half.specs.Half.{half_said};
ghost use Rattle.walk_half.specs.Outcome.{half_meaning};
ghost use Rattle.out_numbers.specs.Numbers.{Plain};

use call_half::{HalfAnswer, HalfOutcome};
use out_numbers::Numbers;

// An answer as numbers: found 0, R, m, 0; spent 11, b, e, 0; refused j, 0, 0, 0. A function and no `From`, since
// both types are of other crates.
#[tactic(auto, unfolding(spec_half::specs::Half::half_said))]
pub fn half_numbers(a: HalfAnswer) -> Numbers
    ensures words { result.words ≡ a.words }
    ensures says { Plain (half_said (half_meaning a.outcome)) result.number result.first result.second result.third }
{
    let (number, first, second) = match a.outcome {
        HalfOutcome::Found(r, m) => (0, r.0, m.0),
        HalfOutcome::Spent(k, e) => (11, k.0, e.0),
        HalfOutcome::Refused(j) => (j as u64, 0, 0),
    };
    Numbers {
        words: a.words,
        number,
        first,
        second,
        third: 0,
    }
}
