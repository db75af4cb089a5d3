// The words after the first two: their number, their kinds and the end word.
ghost use Rattle.std.specs.Prelude.{◌≡◌, ◌+◌, ◌<◌, ◌≤◌, not, map, length, get_or, drop};
ghost use Rattle.spec_arithmetic.specs.Words.{kind, same};
ghost use Rattle.spec_definitions.specs.Ticket.{later_kinds, wrong_layout};
ghost use Rattle.base_words.specs.WordKind.{number_of};

use crate::kinds::wrong_kinds;
use base_words::{WordKind, value};

// The kind of the word i places after the first two: n + 1 coefficients, the budget, the end.
#[tactic(auto, using(crate::specs::Kinds::later_parts))]
fn later_kind(n: usize, i: usize) -> WordKind
    requires { (n ≤ 64) × (i < n + 3) }
    ensures { number_of result ≡ get_or (later_kinds n) i 0 }
{
    if i < n + 1 {
        WordKind::Coefficient
    } else if i == n + 1 {
        WordKind::Budget
    } else {
        WordKind::End
    }
}

// A word after the first two has the wrong kind.
fn wrong_later(n: usize, words: &[u32]) -> bool
    requires { (n ≤ 64) × (length words.now ≡ n + 5) }
    ensures { result ≡ not (same (map kind (drop 2 words.now)) (later_kinds n)) }
{
    wrong_kinds(&words[2..], |i| later_kind(n, i))
}

// Not n + 5 words in all, or a later word has the wrong kind, or the end word isn't n + 4.
#[tactic(auto, using(crate::specs::Refusal::number_tests), unfolding(spec_definitions::specs::Ticket::wrong_layout))]
pub fn wrong_layout(n: usize, words: &[u32]) -> bool
    requires { n ≤ 64 }
    ensures { result ≡ wrong_layout n words.now }
{
    words.len() != n + 5 || wrong_later(n, words) || value(words[n + 4]) as usize != n + 4
}
