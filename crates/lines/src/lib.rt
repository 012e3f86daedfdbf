// One line of text in, one line out, and input as it comes.
#![tactic(auto)]

pub mod feed;
pub mod format;
pub mod input;
pub mod line;
