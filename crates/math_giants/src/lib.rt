// Mathematics only: giant steps within the continued fraction of √D, over any field in which 2 is not 0. The
// theorem to open is `lands` in specs/Lands: the giant step of two ideals of the endless walk is an ideal of
// it, at the sum of the two distances and f, exactly.
// What follows from it:
// - Within: giant steps remain in one period.
// - Place and Below: the last ideal at or below a distance, by halving, from giant steps and single steps on
//   pairs (Q, P).
// - Jumps: the landings of math_landings by giant steps.
// What carries it: the generators of math_generators; GiantStep and Exists, the giant step, and that any two
// ideals have one.
#![tactic(auto)]
