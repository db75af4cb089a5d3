// The ideal at or below a distance, request R-5 of document 02, specs only.
// - Halving: the definitions. Reached: where the halving ends. Below: the demands as statements, with the proofs of T1
//   and of T2 up to R. Repeats: the walk past R.
// - Only: no other answer satisfies the statements. Example: answers by computation.
#![tactic(auto)]
