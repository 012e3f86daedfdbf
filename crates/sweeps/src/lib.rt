// The audit's rings phase: every ring is walked and its details marked; none may be astray or unmet.
#![tactic(auto)]

pub mod calcs;
pub mod chains;
mod walks;
