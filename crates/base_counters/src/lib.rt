// The counts of a walk. Each is a type of its own, so that one is never taken for another: a conversion is always by
// name, `Index(n)` or `i.0`.
#![tactic(auto)]

ghost use Rattle.std.specs.Prelude.{◌<◌};
ghost use Rattle.spec_definitions.specs.Ticket.{budgets};

// A walk's index, the source's i; also the quasi-period and the number of steps taken.
#[derive(Clone, Copy, PartialEq, Eq, PartialOrd, Ord)]
pub struct Index(pub u64);

// A walk's distance, the source's δ_i; also the regulator and the degree reached.
#[derive(Clone, Copy, PartialEq, Eq, PartialOrd, Ord)]
pub struct Distance(pub u64);

// How many steps a walk may make: the value of a word.
#[derive(Clone, Copy)]
pub struct Budget {
    pub steps: u64,
    pub ghost few: { steps < budgets },
}
