// The distances of a listing: that they rise, and the last one within a distance.
#![tactic(auto)]

ghost use Rattle.std.specs.Prelude.{◌≡◌, ◌+◌, ◌*◌, ◌-◌, ◌<◌, ◌≤◌, length};
ghost use Rattle.spec_definitions.specs.Lookup.{rising, last_within, record_count};
ghost use Rattle.listing_distances.specs.Distances.{distance_of};

use base_counters::Distance;
use base_words::{joined, value};
use listing_whole::Listing;

// The distance in the words of a record.
#[tactic(auto, unfolding(crate::specs::Distances::distance_of))]
pub fn distance_of(words: &[u32]) -> Distance
    requires { 2 < length words.now }
    ensures { result.0 ≡ distance_of words.now }
{
    Distance(joined(value(words[1]), value(words[2])))
}

// Whether each distance is above the one before it.
pub fn rising(listing: Listing) -> bool
    ensures { result ≡ rising listing.entry.words.now listing.entry.n (record_count listing.entry.words.now listing.entry.n - 1) }
{
    listing
        .words
        .chunks_exact(listing.n + 4)
        .is_sorted_by(|here, next| distance_of(here) < distance_of(next))
}

// The last record with distance at most y, counted from 0; the first where there is none. The records are counted once, as
// a chunk taken from the end would cost a division for each of them.
pub fn last_within(listing: Listing, y: Distance) -> usize
    ensures last { result ≡ last_within listing.entry.words.now listing.entry.n y.0 (record_count listing.entry.words.now listing.entry.n - 1) }
    ensures fits { result * (listing.entry.n + 4) + (listing.entry.n + 4) ≤ length listing.entry.words.now }
{
    let size = listing.n + 4;
    for k in (1..listing.words.len() / size).rev() {
        let at = k * size;
        if distance_of(&listing.words[at..at + size]) <= y {
            return k;
        }
    }
    0
}
