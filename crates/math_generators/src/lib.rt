// Mathematics only: generators of the ideals (Q, P), over any field in which 2 is not 0.
// - Generators: what generates an ideal; the convergents generate the walk's.
// - GeneratorStep, GeneratorSteps and GeneratorProduct: generators of the next ideal, through a reduction, of a
//   product.
// - Classification: a reduced ideal with a big generator is an ideal of the walk (`classify` is the theorem to
//   open).
#![tactic(auto)]
