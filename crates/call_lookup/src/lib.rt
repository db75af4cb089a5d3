// The call `lookup`: the record of a listing at a distance, as a part of the caller's own list.
#![tactic(auto)]

ghost use Rattle.std.specs.Prelude.{◌≡◌, ◌+◌, ◌*◌, MatchOption};
ghost use Rattle.spec_definitions.specs.Lookup.{lookup_of, place_of};
ghost use Rattle.call_lookup.specs.Refusal.{right_records};
ghost use Rattle.call_lookup.specs.Part.{IsRefused, IsFound};

use base_counters::Distance;
use listing_distances::{distance_of, last_within, rising};
use listing_kinds::kinds_ok;
use listing_whole::Listing;
use std::ops::Range;

// Whether the records have their kinds, and distances from 0 on that rise.
#[tactic(auto, using(listing_distances::specs::Distances::distance_of_first))]
fn records_ok(listing: Listing) -> bool
    ensures { result ≡ right_records listing.entry.words.now listing.entry.n }
{
    let first = distance_of(&listing.words[..listing.n + 4]);
    kinds_ok(listing) && first.0 == 0 && rising(listing)
}

// Where the record of the listing with the largest distance at most y stands; None is refusal 8.
#[tactic(auto, using(crate::specs::Part::refused, crate::specs::Refusal::of_none))]
pub fn place(list: &[u32], n: u64, y: Distance) -> Option<Range<usize>>
    ensures { MatchOption result (IsRefused list.now n y.0) (λ part. IsFound list.now n y.0 part.start part.end) }
{
    let listing = Listing::new(list, n)?;
    if !records_ok(listing) {
        return None;
    }
    let start = last_within(listing, y) * (listing.n + 4);
    Some(start..start + (listing.n + 4))
}

// The record itself, as a part of the caller's list, or the empty part at its start; the list is the listing's words
// alone, with nothing after them.
pub fn lookup<'a>(list: &'a [u32], n: u64, y: Distance) -> &'a [u32]
    ensures content { result.now ≡ lookup_of list.now n y.0 }
    ensures block { result.ref_ptr.0 ≡ list.entry.ref_ptr.0 }
    ensures place { result.ref_ptr.1 ≡ list.entry.ref_ptr.1 + 4 * place_of list.now n y.0 }
{
    match place(list, n, y) {
        Some(part) => &list[part],
        None => &list[..0],
    }
}
