// The definitions on lists of words are the operations of the field of q elements and of its polynomials,
// specs only. The record to open is `Model` in specs/Model: a map of coefficients into a ring that respects
// the operations.
// - Trim, Lengths, Degree, Coefficients, One: lists as polynomials, and back.
// - Arithmetic, Product, Division, Quotient, Stages, Monic, Derivative, Root: each operation of the
//   definitions.
// - Gcd, Bezout, BezoutLength, Euclid: gcd and its factors. Prime, Residues: the allowed q, and the numbers
//   modulo q.
#![tactic(auto)]
