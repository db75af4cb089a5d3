// The public calls, each from a crate of its own. None relies on its caller: every list of words has its
// answer, and every lent list is said at exit.
#![tactic(auto)]

pub use base_answers::Answer;
pub use base_counters::{Distance, Index};
pub use base_polynomial::Poly;
pub use base_refusals::Refusal;
pub use call_lookup::lookup;
pub use call_product::Pair;
pub use call_regulator::regulator;
pub use walk_outcome::Outcome;

pub mod regulators {
    pub use call_regulators::{SeveralAnswer, regulators};
}

pub mod half {
    pub use call_half::{HalfAnswer, HalfOutcome, half};
}

pub mod unit {
    pub use call_unit::unit;
}

pub mod listing {
    pub use call_listing::listing;
}

pub mod product {
    pub use call_product::{IdealProduct, ProductAnswer, product};
}

pub mod giant_step {
    pub use call_giant_step::{GiantStep, GiantStepAnswer, Shift, giant_step};
}

pub mod at_distance {
    pub use call_ideal_at::{IdealAt, IdealAtAnswer, ideal_at};
}

pub mod estimate {
    pub use call_estimate::{EstimateAnswer, Estimated, estimate};
}
