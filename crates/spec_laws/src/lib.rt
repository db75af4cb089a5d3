// The definitions' walk, convergents, products and reductions are those of math_surd and math_ideals, as
// equations of lists, specs only.
// The record to open is `Admitted` in specs/Admitted: what a ticket past refusals 1 to 7 gives.
// - FirstTest, Layout, Coefficients: the tests of a ticket. Cases: the cases of an outcome. RecordLength: the
//   words of a listing.
// - Surd, NoSquare, Fraction, Walk, State: the walk. Convergents, Norms, Signs, Leads, QuasiPeriod, Solutions: its
//   convergents. Monic: the unit.
// - Pairs, PairTest, Product, ProductCong, ProductSizes: products. Reduction, ReductionSizes, Reduced, Shift:
//   reductions.
#![tactic(auto)]
