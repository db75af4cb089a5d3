// Words of 32 bits, the top 4 bits the kind and the low 28 the value; numbers of two words.
#![tactic(auto)]

ghost use Rattle.std.specs.Prelude.{◌≡◌, ◌<◌};
ghost use Rattle.spec_arithmetic.specs.Words.{values, kind as kind_of, value as value_of, word as word_of, high as high_of, low as low_of, joined as joined_of};
ghost use Rattle.base_words.specs.Numbers.{kinds, pairs};
ghost use Rattle.base_words.specs.WordKind.{number_of};

// How many values a word has: 2²⁸.
pub const VALUES: u32 = 268435456;

// What a word stands for: its kind, a number of 4 bits.
#[derive(Clone, Copy, Debug, PartialEq, Eq)]
pub enum WordKind {
    Prime = 1,
    Degree = 2,
    Coefficient = 3,
    Budget = 4,
    Index = 5,
    DistanceHigh = 6,
    DistanceLow = 7,
    QCoefficient = 8,
    PCoefficient = 9,
    MirrorHigh = 10,
    MirrorLow = 11,
    Integer = 12,
    End = 15,
}

impl From<WordKind> for u32 {
    ghost from_gives = { λ k n. n ≡ number_of k };

    fn from(k: WordKind) -> u32 {
        k as u32
    }
}

// The kind of a word.
#[tactic(auto, unfolding(spec_arithmetic::specs::Words::kind))]
pub fn kind(word: u32) -> u32
    ensures { result ≡ kind_of word }
{
    word / VALUES
}

// The value of a word.
#[tactic(auto, unfolding(spec_arithmetic::specs::Words::value))]
pub fn value(word: u32) -> u32
    ensures { result ≡ value_of word }
{
    word % VALUES
}

// The word of a kind with a value.
#[tactic(auto, unfolding(spec_arithmetic::specs::Words::word))]
pub fn word(kind: u32, value: u32) -> u32
    requires { (kind < kinds) × (value < values) }
    ensures { result ≡ word_of kind value }
{
    kind * VALUES + value
}

// The high 28 bits of a number of two words.
#[tactic(auto, unfolding(spec_arithmetic::specs::Words::high))]
pub fn high(x: u64) -> u32
    requires { x < pairs }
    ensures { (result ≡ high_of x) × (result < values) }
{
    (x / VALUES as u64) as u32
}

// The low 28 bits.
#[tactic(auto, unfolding(spec_arithmetic::specs::Words::low))]
pub fn low(x: u64) -> u32
    ensures { (result ≡ low_of x) × (result < values) }
{
    (x % VALUES as u64) as u32
}

// The number of two words with these values.
#[tactic(auto, unfolding(spec_arithmetic::specs::Words::joined))]
pub fn joined(high: u32, low: u32) -> u64
    ensures { result ≡ joined_of high low }
{
    high as u64 * VALUES as u64 + low as u64
}
