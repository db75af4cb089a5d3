// The kinds of words, tested one by one against those that a layout asks for.
ghost use Rattle.std.specs.Prelude.{ℕ, ◌<◌, IsTrue, IsFalse, length};
ghost use Rattle.ticket_layout.specs.Kinds.{HasKind, LacksKind};

use base_words::{WordKind, kind};

// A word has not the kind that `kind_at` says of its place.
pub fn wrong_kinds<F: Fn(usize) -> WordKind>(words: &[u32], kind_at: F) -> bool
    requires { (i : ℕ) → i < length words.now → F.pre kind_at i }
    ensures wrong { IsTrue result → (i : ℕ) × (i < length words.now) × LacksKind (F.post kind_at) words.now i }
    ensures right { IsFalse result → (i : ℕ) → i < length words.now → HasKind (F.post kind_at) words.now i }
{
    for (i, &word) in words.iter().enumerate() {
        if kind(word) != u32::from(kind_at(i)) {
            return true;
        }
    }
    false
}
