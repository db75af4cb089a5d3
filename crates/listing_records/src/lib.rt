// The records of a walk one after the other, in a lent list.
#![tactic(auto)]

pub mod listing;
