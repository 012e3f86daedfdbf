// A file's pages, changed: records put in and taken out, fresh pages.
#![tactic(auto)]

pub mod moves;
