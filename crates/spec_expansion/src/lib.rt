// The walk is the expansion of √D in a continued fraction (specs/PolynomialPart), and its quasi-period exists
// (specs/QuasiPeriod), specs only. Digits and the pigeonhole principle carry the second: finitely many pairs
// (Q, P).
#![tactic(auto)]
