// A file's bytes, changed: words and parts copied in, links of rings.
#![tactic(auto)]

pub mod copies;
pub mod links;
