// Arrays of 129 coefficients modulo q: what is done place by place for the polynomials' records.
#![tactic(auto)]

pub mod linear;
pub mod product;
