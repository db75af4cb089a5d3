// Euclid's algorithm on polynomials by reference: the greatest common divisor, Bezout's factors.
#![tactic(auto)]

pub mod bezout;
pub mod gcd;
