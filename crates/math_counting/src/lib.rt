// Mathematics only: counting.
// The theorem to open is `square_factors` in specs/SquareFactors: over a perfect field the monic polynomials
// of degree n - 1 and the monic polynomials of degree n with a square factor correspond one to one, n ≥ 2.
// - Pigeonhole: lists in which nothing comes twice, partners, the pigeonhole principle.
// - Repeats: the same for numbers; of n + 1 values below n, two are equal.
// - Count, HowMany: how many of a list pass a test; "k things have this property". Numbers: those below n, and
//   how many of them pass a test.
// - SquarePart: a monic polynomial is a squarefree one times a square, in one way.
#![tactic(auto)]
