// A file's pages, read: bytes, records looked up by code, their fields and keys, room; and single bytes and links written.
// Every function is total: what is not there is None or reads as 0, and a write to it does nothing.
#![tactic(auto)]

pub mod bytes;
pub mod fields;
pub mod keys;
pub mod lookup;
pub mod room;
pub mod writes;
