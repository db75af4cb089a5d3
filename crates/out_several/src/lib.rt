// The outcomes at several primes as plain numbers, four for each place of a lent array of 64.
#![tactic(auto)]

ghost use Rattle.std.specs.Prelude.{◌≡◌, ◌*◌, ◌<◌, length};
ghost use Rattle.spec_several.specs.Several.{most_primes};
ghost use Rattle.walk_outcome.specs.Outcome.{meaning};
ghost use Rattle.call_regulators.specs.Regulators.{outcomes};
ghost use Rattle.out_several.specs.Places.{Put, InPlaces};

use base_answers::Answer;
use call_regulators::SeveralAnswer;
use out_numbers::Numbers;
use walk_outcome::Outcome;

// The number of words handed in, and how many outcomes there are.
#[repr(C)]
#[derive(Clone, Copy)]
pub struct SeveralNumbers {
    pub words: u64,
    pub count: u64,
}

// The four numbers of an outcome into place i: the paper's number, then its values.
fn put_outcome(outcome: Outcome, i: usize, out: &mut [u64; 64])
    requires { (i < most_primes) × (length out.old ≡ 4 * most_primes) }
    ensures { Put out.old i (meaning outcome) out.new }
{
    // the word count of this answer is not used
    let x = Numbers::from(Answer { words: 0, outcome });
    let at = 4 * i;
    out[at] = x.number;
    out[at + 1] = x.first;
    out[at + 2] = x.second;
    out[at + 3] = x.third;
}

// The numbers of every place into the array.
pub fn put_outcomes(a: &SeveralAnswer, out: &mut [u64; 64]) -> SeveralNumbers
    requires { length (outcomes a.now) ≡ most_primes }
    ensures words_value { (result.words ≡ a.now.words) × (result.count ≡ a.now.count) }
    ensures out_len { (length out.new ≡ 4 * most_primes) × InPlaces (outcomes a.now) out.new }
{
    // Written whole, so that its length is known.
    *out = [0u64; 64];
    for i in 0..16 {
        put_outcome(a.places[i], i, out);
    }
    SeveralNumbers {
        words: a.words,
        count: a.count,
    }
}
