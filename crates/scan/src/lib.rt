// The audit's pages phase: whether each page of a file is laid out as a ledger's.
#![tactic(auto)]

pub mod pages;
