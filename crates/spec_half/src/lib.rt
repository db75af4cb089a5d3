// Half the walk, request R-2 of document 02, specs only.
// - Half: the definitions. HalfWalk: the demands as statements, with their proofs.
// - Middles, Duplication, Cases: what the proofs rest on. Computed: the tests and R from what the code holds.
// - Example: answers by computation.
#![tactic(auto)]
