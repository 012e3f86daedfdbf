// What the frames' functions compute on text: definitions and their laws, and the values that they name. No code.
#![tactic(auto)]

// Where the reading of a line stands: the first digit of a byte that waits for its second, and how many bytes are done.
#[derive(Clone, Copy)]
pub struct Reading {
    pub high: Option<u8>,
    pub count: usize,
}
