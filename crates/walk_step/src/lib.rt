// One step of the walk of the continued fraction of √D, by the recurrences of source 000.
#![tactic(auto)]

pub mod step;

pub use walk_short::Step;
