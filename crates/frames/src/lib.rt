// Frames: a call as bytes, and a line of text as a frame; one line of text in, one line out.
#![tactic(auto)]

pub mod call;
pub mod hex;
pub mod shape;
pub mod text;
