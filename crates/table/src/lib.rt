// The definition table, read as a lent slice of words. Every function is total: a word past the end is 0.
#![tactic(auto)]

pub mod keys;
pub mod order;
pub mod rules;
pub mod sizes;
pub mod words;
