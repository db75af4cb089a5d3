// The shape of the words, refusal 14, and the degree, refusal 3.
ghost use Rattle.std.specs.Prelude.{◌≡◌, not, map, ◌+◌, ◌-◌, ◌<◌, ◌≤◌, length, get_or};
ghost use Rattle.spec_arithmetic.specs.Words.{kind, same};
ghost use Rattle.spec_several.specs.Several.{several_kinds, wrong_shape, several_refusal};
ghost use Rattle.base_refusals.specs.Number.{refused_by};
ghost use Rattle.base_words.specs.WordKind.{number_of};

use base_refusals::Refusal;
use base_words::{WordKind, value};
use ticket_layout::head::wrong_degree;
use ticket_layout::kinds::wrong_kinds;

// The kind that word i has in the right shape: the degree, n + 1 coefficients, the budget, the primes, the end.
#[tactic(auto, using(crate::specs::Shape::shape_parts))]
fn right_kind(n: usize, length: usize, i: usize) -> WordKind
    requires { (n + 5 ≤ length) × (i < length) }
    ensures { number_of result ≡ get_or (several_kinds n (length - (n + 4))) i 0 }
{
    if i == 0 {
        WordKind::Degree
    } else if i < n + 2 {
        WordKind::Integer
    } else if i == n + 2 {
        WordKind::Budget
    } else if i < length - 1 {
        WordKind::Prime
    } else {
        WordKind::End
    }
}

// A word has another kind than in the right shape.
fn other_kinds(n: usize, words: &[u32]) -> bool
    requires { n + 5 ≤ length words.now }
    ensures { result ≡ not (same (map kind words.now) (several_kinds n (length words.now - (n + 4)))) }
{
    wrong_kinds(words, |i| right_kind(n, words.len(), i))
}

// There are not one to sixteen primes, or a word has the wrong kind, or the last word isn't the number of
// words before it. There are n + 4 words beside the primes.
fn wrong_shape(words: &[u32]) -> bool
    ensures { result ≡ wrong_shape words.now }
{
    let Some(&first) = words.first() else {
        return true;
    };
    let n = value(first) as usize;
    words.len() < n + 5
        || n + 20 < words.len()
        || other_kinds(n, words)
        || value(words[words.len() - 1]) as usize != words.len() - 1
}

// The ticket's own refusal: 14, then 3.
pub fn several_refusal(words: &[u32]) -> Result<(), Refusal>
    ensures { refused_by result ≡ several_refusal words.now }
{
    if wrong_shape(words) {
        return Err(Refusal::Shape);
    }
    if wrong_degree(value(words[0]) as usize) {
        return Err(Refusal::Degree);
    }
    Ok(())
}
