// How many, specs only: all monic coefficient lists of degree n over q (Monics), and those with a square
// factor. The theorem to open is `square_many` in specs/SquareCount: of the q^n monic D of degree n ≥ 2 the
// square of some polynomial of degree 1 or more divides q^(n - 1).
#![tactic(auto)]
