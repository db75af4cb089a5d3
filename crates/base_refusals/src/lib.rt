// The refusals, each with its number.
#![tactic(auto)]

ghost use Rattle.std.specs.Prelude.{◌≡◌};
ghost use Rattle.base_refusals.specs.Number.{number_of};

// Why a call refuses what it is handed, in the order of the numbers. 8 is that of `lookup`, which answers the empty
// part, and 11 is the number of an outcome that is spent.
#[derive(Clone, Copy, Debug, PartialEq, Eq)]
pub enum Refusal {
    // 1: fewer than 7 words, or the first two are not a prime and a degree.
    Head,
    // 2: q is no odd prime below 4,096.
    Prime,
    // 3: n is odd, below 2 or above 64.
    Degree,
    // 4: the number of words, a kind or the end word is wrong.
    Layout,
    // 5: a coefficient is q or more.
    Coefficient,
    // 6: D is not monic of degree n.
    Lead,
    // 7: D has a square factor.
    Squarefree,
    // 9: a pair is not an ideal of the ticket's degree.
    Ideal,
    // 10: a distance is above the largest.
    Distance,
    // 12: a list is too short for the unit.
    UnitRoom,
    // 13: the list is too short for the records.
    ListingRoom,
    // 14: a ticket with several primes is not of the shape of one.
    Shape,
    // 15: q or n is above the largest that is estimated.
    Size,
}

impl From<Refusal> for u32 {
    ghost from_gives = { λ r n. n ≡ number_of r };

    // By arithmetic on the place, with 8 and 11 passed over: of numbers with gaps at the variants themselves
    // (`Ideal = 9`) the compiler makes a constant table.
    fn from(r: Refusal) -> u32 {
        let place = r as u32;
        let passed = u32::from(place >= Refusal::Ideal as u32)
            + u32::from(place >= Refusal::UnitRoom as u32);
        place + 1 + passed
    }
}
