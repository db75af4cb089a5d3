// The unit p + s·√D in lent lists: the convergents over the leading coefficient of p, with the work lists left as
// zeros.
#![tactic(auto)]

pub mod unit;
