// The store: FORMAT and the thirteen calls on a lent table and file, with the currency by value.
#![tactic(auto)]

pub mod calls;
pub mod changes;
pub mod checks;
