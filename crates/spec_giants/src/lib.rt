// Giant steps within the endless walk, specs only: the mathematics of math_giants carried to the definitions'
// lists.
// - Normal: a pair made monic and reduced stands for its ideal. GiantSteps: the definitions' giant step is that
//   over the field. Steps: steps see only the ideal.
// - Entries: the ideal and the distance of every index of the endless walk, and the steps from one. Landings:
//   where the giant step of two of them lands.
#![tactic(auto)]
