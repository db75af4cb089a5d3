// Decimal digits, specs only.
// - Decimal: the last digit after the others, and how many there are at most.
// - Digits: digits read back; a line of numbers fixes each of them.
#![tactic(auto)]
