// Mathematics only: the regulator by baby steps and giant steps, over any field in which 2 is not 0. The
// theorem to open is `searches` in specs/Landings: it is found exactly if it is at most the last landing's
// distance. Which landings there are is in math_giants.
#![tactic(auto)]
