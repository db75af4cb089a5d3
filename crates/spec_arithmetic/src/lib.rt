// The arithmetic of document 01 as executable definitions, specs only. Above each is the sentence that it
// stands for. Field: coefficients, and which field. Polynomials: coefficient lists. Primes: the allowed q.
// Words: kinds and values. A crate apart from spec_definitions, so that a change of the ticket, the walk or
// an answer re-proves no leaf.
#![tactic(auto)]
