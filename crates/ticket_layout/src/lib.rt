// The tests of a ticket on q, n and the layout of its words, refusals 1 to 4, one by one.
#![tactic(auto)]

pub mod head;
pub mod kinds;
pub mod layout;
pub mod order;
