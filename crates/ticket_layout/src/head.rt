// The first two words: their kinds, and which n are allowed.
ghost use Rattle.std.specs.Prelude.{◌≡◌, [], ◌∷◌};
ghost use Rattle.spec_definitions.specs.Ticket.{wrong_head, wrong_degree};

use base_degrees::is_allowed_degree;
use base_words::{WordKind, kind};

// Fewer than 7 words, or word 0 isn't kind 1, or word 1 isn't kind 2.
#[tactic(auto, using(crate::specs::Refusal::number_tests), unfolding(spec_definitions::specs::Ticket::wrong_head))]
pub fn wrong_head(words: &[u32]) -> bool
    ensures { result ≡ wrong_head (1 ∷ []) words.now }
{
    words.len() < 7
        || kind(words[0]) != WordKind::Prime as u32
        || kind(words[1]) != WordKind::Degree as u32
}

// n is odd, below 2 or above 64.
pub fn wrong_degree(n: usize) -> bool
    ensures { result ≡ wrong_degree n }
{
    !is_allowed_degree(n as u64)
}
