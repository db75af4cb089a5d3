// Mathematics only: the symmetry of the continued fraction of √D, over any field in which 2 is not 0. m is
// the quasi-period, R the regulator.
// The theorem to open is `half` in specs/Half: half the walk tells m and R; `budget` says within how many
// steps.
// - Period: past m the walk repeats, with distances raised by R.
// - Palindrome: up to m it is the same from both ends; Reflect carries this from one place to all.
// - Distinct: before m no ideal comes twice.
// - Conjugate: the index and the distance of the conjugate of an ideal.
#![tactic(auto)]
