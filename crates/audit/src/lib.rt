// Whether a file is sound, or where it is damaged: pages, then rings, then order and duplicates.
#![tactic(auto)]

pub mod faults;
