// The step p_i = a_i·p_{i−1} + p_{i−2} of the convergents, in two lent lists and in place.
#![tactic(auto)]

pub mod combine;
pub mod pair;
