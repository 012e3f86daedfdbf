// STORE: decided on a shared file, and carried out on a mutable one.
#![tactic(auto)]

pub mod contents;
pub mod placing;
pub mod storing;
