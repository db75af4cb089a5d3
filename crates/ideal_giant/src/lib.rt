// The giant step: the product of two ideals, reduced by steps of the walk, with the distance that it comes
// to.
#![tactic(auto)]

pub mod step;

use base_counters::Distance;

// The largest distance that a giant step takes: 2⁴⁰.
pub const FARTHEST: Distance = Distance(1099511627776);

// f, and the distance that the giant step comes to.
#[derive(Clone, Copy)]
pub struct Shift {
    pub f: i64,
    pub distance: i64,
}
