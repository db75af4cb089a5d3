// A list of whole records of an allowed degree, and room for so many records.
#![tactic(auto)]

ghost use Rattle.std.specs.Prelude.{◌≡◌, ◌+◌, ◌*◌, ◌<◌, ◌≤◌, leb, MatchOption};
ghost use Rattle.spec_definitions.specs.Ticket.{budgets};
ghost use Rattle.listing_whole.specs.Records.{Records};

use base_counters::Index;
use base_degrees::is_allowed_degree;

// The words of one or more whole records of degree n, n + 4 words each.
#[derive(Clone, Copy)]
pub struct Listing<'a> {
    pub words: &'a [u32],
    pub n: usize,
    ghost is_whole: { Records words.now n },
}

impl<'a> Listing<'a> {
    // None where n is not allowed or the words are not one or more whole records.
    pub fn new(words: &'a [u32], n: u64) -> Option<Listing<'a>>
        ensures { MatchOption result (Records words.now n → ⊥) (λ l. (l.words ≡ words.entry) × (l.n ≡ n)) }
    {
        if !is_allowed_degree(n) {
            return None;
        }
        let n = n as usize;
        if words.is_empty() || words.len() % (n + 4) != 0 {
            return None;
        }
        Some(Listing { words, n })
    }
}

// A list of `size` words has room for m records of degree n.
pub fn room(n: usize, m: Index, size: usize) -> bool
    requires { (n ≤ 64) × (m.0 < budgets) }
    ensures { result ≡ leb (m.0 * (n + 4)) size }
{
    m.0 as usize * (n + 4) <= size
}
