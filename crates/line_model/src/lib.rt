// What the player's functions compute: definitions, and the values that they name. No code.
#![tactic(auto)]

use ledger::{Answer, Currency};

// The state between lines: how many words the table has, 0 before one is accepted, and the currency.
// A length and no Option: a table of no words is never accepted, and `Buffers.Stands` speaks of the words that the lent buffer holds.
#[derive(Clone, Copy)]
pub struct Session {
    pub words: usize,
    pub currency: Currency,
}

// What a frame came to: the session after it, the answer, and how many bytes of READ's output it shows.
#[derive(Clone, Copy)]
pub struct Reply {
    pub session: Session,
    pub answer: Answer,
    pub shown: usize,
}

// What a line came to: the session after it, and how many bytes it prints.
#[derive(Clone, Copy)]
pub struct Played {
    pub session: Session,
    pub count: usize,
}

// Input as it comes: the session, how many bytes of the present line are held, and how many bytes of output are gathered.
// Lengths beside lent buffers and no Vec: memory is fixed, and a part of a buffer that is lent cannot grow.
#[derive(Clone, Copy)]
pub struct Feed {
    pub session: Session,
    pub held: usize,
    pub printed: usize,
}
