// A ticket with integer coefficients and several primes: its shape, and the single job at each prime.
#![tactic(auto)]

pub mod job;
pub mod shape;
