// What a product asks of each of its two ideals, and (D − P²)/Q of an ideal.
// Invariant (`Operand`) of an ideal that is handed in: it stands for a pair that passes the test of refusal 9.
#![tactic(auto)]

pub mod cofactor;
