// The audit's duplicates: calculated records of one type and key, found by sorting.
#![tactic(auto)]

pub mod sorting;
pub mod twins;
