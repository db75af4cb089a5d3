// The recurrence p_i = a_i·p_{i−1} + p_{i−2} of the convergents of √D along its walk, in lent lists.
#![tactic(auto)]

pub mod steps;
