// The demands on what the public calls answer, specs only.
// - Refusals, Outcomes: refused, found and spent, for each call. Further: a call with one refusal of its own after
//   the ticket's. Records, Units: the words and places at exit.
#![tactic(auto)]
