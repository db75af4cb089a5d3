// The words of one record, stored from the start of a lent list on. What is stored is one list,
// `record_words`, and every other word of the lent list stays.
#![tactic(auto)]

ghost use Rattle.std.specs.Prelude.{◌≡◌, [], ◌∷◌, map, ℕ, ◌+◌, ◌<◌, ◌≤◌, length, get_or};
ghost use Rattle.spec_arithmetic.specs.Field.{modulo};
ghost use Rattle.spec_arithmetic.specs.Polynomials.{pad};
ghost use Rattle.spec_arithmetic.specs.Words.{word as word_of, high as high_of, low as low_of, pairs, values};
ghost use Rattle.spec_definitions.specs.Listing.{record_words};
ghost use Rattle.spec_definitions.specs.Ticket.{budgets};
ghost use Rattle.base_words.specs.WordKind.{number_of};
ghost use Rattle.listing_words.specs.Stored.{stored};

use base_counters::{Distance, Index};
use base_ideal::Ideal;
use base_words::{WordKind, high, low, word};

// The word of a kind with a value.
fn word_of_kind(kind: WordKind, value: u32) -> u32
    requires { value < values }
    ensures { result ≡ word_of (number_of kind) value }
{
    word(u32::from(kind), value)
}

// A distance as two words of these kinds.
fn words_of_distance(high_kind: WordKind, low_kind: WordKind, x: Distance) -> [u32; 2]
    requires { x.0 < pairs }
    ensures { result ≡ (word_of (number_of high_kind) (high_of x.0) ∷ word_of (number_of low_kind) (low_of x.0) ∷ []) }
{
    [
        word_of_kind(high_kind, high(x.0)),
        word_of_kind(low_kind, low(x.0)),
    ]
}

// The words before the coefficients: the index, the distance and the mirror.
fn first_words(index: Index, distance: Distance, mirror: Distance) -> [u32; 5]
    requires { (index.0 < budgets) × (distance.0 < pairs) × (mirror.0 < pairs) }
    ensures { result ≡ (word_of 5 index.0 ∷ word_of 6 (high_of distance.0) ∷ word_of 7 (low_of distance.0) ∷ word_of 10 (high_of mirror.0) ∷ word_of 11 (low_of mirror.0) ∷ []) }
{
    let number = word_of_kind(WordKind::Index, index.0 as u32);
    let [distance_high, distance_low] = words_of_distance(
        WordKind::DistanceHigh,
        WordKind::DistanceLow,
        distance,
    );
    let [mirror_high, mirror_low] = words_of_distance(
        WordKind::MirrorHigh,
        WordKind::MirrorLow,
        mirror,
    );
    [number, distance_high, distance_low, mirror_high, mirror_low]
}

// The first coefficients of c, as words of a kind.
#[tactic(auto, using(crate::specs::Parts::coefficient_words))]
fn put_coefficients(words: &mut [u32], kind: WordKind, c: &[u32; 129])
    requires count { length words.old ≤ 129 }
    requires by_index { (i : ℕ) → get_or c.now i 0 < values }
    ensures { (k : ℕ) → words.new ≡ map (word_of (number_of kind)) (pad (modulo k) (length words.old) c.now) }
{
    for i in 0..words.len() {
        words[i] = word_of_kind(kind, c[i]);
    }
}

// A record: its index, its distance and mirror in two words each, n / 2 coefficients of Q and one less of P.
pub fn put_record(
    words: &mut [u32],
    n: usize,
    index: Index,
    distance: Distance,
    mirror: Distance,
    ideal: &Ideal,
)
    requires n_in_bounds { (n + 4 ≤ length words.old) × (2 ≤ n) × (n ≤ 64) }
    requires index_lt_budgets { (index.0 < budgets) × (distance.0 < pairs) × (mirror.0 < pairs) }
    requires by_index { ((i : ℕ) → get_or ideal.now.q.c i 0 < values) × ((i : ℕ) → get_or ideal.now.p.c i 0 < values) }
    ensures { (k : ℕ) → words.new ≡ stored words.old 0 (record_words (modulo k) n mirror.0 (record { index = index.0; distance = distance.0; ideal = record { q = ideal.now.q.c; p = ideal.now.p.c } })) }
{
    let (first, coefficients) = words.split_at_mut(5);
    let (of_q, rest) = coefficients.split_at_mut(n / 2);
    first.copy_from_slice(&first_words(index, distance, mirror));
    put_coefficients(of_q, WordKind::QCoefficient, &ideal.q.c);
    put_coefficients(&mut rest[..n / 2 - 1], WordKind::PCoefficient, &ideal.p.c);
}
