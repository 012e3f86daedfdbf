// What each function computes on bytes: definitions and their laws, and the values that they name. No code but a fault's refusal.
#![tactic(auto)]

ghost use Rattle.std.specs.Prelude.{◌≡◌};
ghost use Rattle.ledger.specs.declared.Refusal.TheVariants.{Damaged};

use ledger::Refusal;

// Each code of the largest file, 128 pages of 64 lines, is lower: so many marks there are, and a walk in a ring takes no more steps.
pub const CODES: u16 = 8256;

// A free line of a page, and where its record would start; line 0 where all are used.
#[derive(Clone, Copy)]
pub struct Gap {
    pub line: u8,
    pub at: u32,
}

// What a walk in a chain needs of the table: its two types, where their links stand, and whether it has PRIORs.
#[derive(Clone, Copy)]
pub struct Ends {
    pub master: u16,
    pub detail: u16,
    pub above: u32,
    pub below: u32,
    pub linked: bool,
}

// Where a file is damaged: a page; the header or record of a ring fault; the record of an order fault.
#[derive(Clone, Copy, Debug, PartialEq, Eq)]
pub enum Fault {
    Page(u16),
    Ring(u32),
    Order(u32),
}

// A file with a fault is not sound, wherever the fault is.
impl From<Fault> for Refusal {
    ghost from_gives = { λ _ e. e ≡ Damaged };

    fn from(_fault: Fault) -> Self {
        Refusal::Damaged
    }
}

// Two neighbours of a ring.
#[derive(Clone, Copy)]
pub struct Between {
    pub before: u32,
    pub after: u32,
}

// A record found in a ring, and its place there; 0 in the models where none was, for which the functions have an Option.
#[derive(Clone, Copy)]
pub struct Found {
    pub code: u32,
    pub place: u16,
}

// A detail below a record, and the chain in which it was met.
#[derive(Clone, Copy)]
pub struct Below {
    pub chain: u16,
    pub code: u32,
}
