// The estimate of the class number, request R-7 of document 02, specs only.
// - Estimate: the definitions. Estimates: the demands as statements, with the proofs of T1 and of T2 but for E'.
//   Approximation: the fraction is E' of source 000. Only: no other answer satisfies the statements.
// - Values, Squares, Rounding, Bounds, Ratios: values and squares modulo x − e, how many there are, the nearest whole
//   number, 64 bits, fractions as they are written. Example: answers by computation.
#![tactic(auto)]
