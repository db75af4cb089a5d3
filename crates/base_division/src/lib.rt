// Division of polynomials in place, and the difference v − w·u.
#![tactic(auto)]

pub mod difference;
pub mod division;
