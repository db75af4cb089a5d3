// Integer polynomials at several primes, request R-1 of document 02, specs only.
// - Several: the definitions. Regulators: the demands as statements, with their proofs.
// - Residues, Shape, Single: what the statements speak of, each with its proof.
// - Kinds, Jobs, Laws: what the proofs rest on, here and in the code. Example: outcomes by computation.
#![tactic(auto)]
