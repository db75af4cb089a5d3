// The kinds of a listing's words, record by record.
#![tactic(auto)]

ghost use Rattle.std.specs.Prelude.{◌≡◌, ◌+◌, ◌<◌, false, get_or, length};
ghost use Rattle.spec_definitions.specs.Ticket.{wrong_degree};
ghost use Rattle.spec_definitions.specs.Lookup.{record_kinds, right_kinds, record_count};
ghost use Rattle.base_words.specs.WordKind.{number_of};
ghost use Rattle.listing_kinds.specs.Kinds.{has_kinds};

use base_words::{WordKind, kind};
use listing_whole::Listing;

// The kind of a record's word j: the index, the distance, the mirror, n / 2 coefficients of Q and one less of P.
#[tactic(auto, unfolding(spec_definitions::specs::Lookup::record_kinds))]
fn record_kind(n: usize, j: usize) -> WordKind
    requires { (wrong_degree n ≡ false) × (j < n + 4) }
    ensures { number_of result ≡ get_or (record_kinds n) j 0 }
{
    match j {
        0 => WordKind::Index,
        1 => WordKind::DistanceHigh,
        2 => WordKind::DistanceLow,
        3 => WordKind::MirrorHigh,
        4 => WordKind::MirrorLow,
        5.. if j < 5 + n / 2 => WordKind::QCoefficient,
        5.. => WordKind::PCoefficient,
    }
}

// Whether the words of a record have its kinds.
fn record_kinds_ok(words: &[u32], n: usize) -> bool
    requires { (wrong_degree n ≡ false) × (length words.now ≡ n + 4) }
    ensures { result ≡ has_kinds words.now n }
{
    words
        .iter()
        .enumerate()
        .all(|(j, &word)| kind(word) == u32::from(record_kind(n, j)))
}

// Whether every record has its kinds.
pub fn kinds_ok(listing: Listing) -> bool
    ensures { result ≡ right_kinds listing.entry.words.now listing.entry.n (record_count listing.entry.words.now listing.entry.n) }
{
    listing
        .words
        .chunks_exact(listing.n + 4)
        .all(|words| record_kinds_ok(words, listing.n))
}
