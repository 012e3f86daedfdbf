// The audit's order: the details of each sorted ring, one after another.
#![tactic(auto)]

pub mod order;
