// What a call answers and the state beside the file.
#![tactic(auto)]

ghost use Rattle.std.specs.Prelude.{◌≡◌};
ghost use Rattle.ledger.specs.Answers.{done_with, refused_with, outcome, refusal, refusal_number, outcome_of};
ghost use Rattle.ledger.specs.Currency.{unset};
ghost use Rattle.ledger.specs.Journal.Dues.{due_of};

// Code 0 where the call is done, else the number of its refusal; then the rest is 0. A number with a constant for each refusal is the form that
// the specification names, and C reads it; `Refusal` is the same below the public calls.
#[derive(Clone, Copy)]
pub struct Answer {
    pub code: u8,
    pub reference: u32,
    pub kind: u16,
    pub count: u16,
}

impl Answer {
    // The table breaks a rule.
    pub const BAD_TABLE: u8 = 1;

    // The file is not 512 x N bytes.
    pub const BAD_SIZE: u8 = 2;

    // The file is not sound.
    pub const DAMAGED: u8 = 3;

    // The currency breaks its rule.
    pub const BAD_CURRENCY: u8 = 4;

    // No such call, type or chain.
    pub const UNKNOWN: u8 = 5;

    // No current record.
    pub const NO_CURRENT: u8 = 6;

    // KEY of a type not calculated, FIND in an unsorted chain, RELINK of a record not the chain's detail type.
    pub const WRONG_KIND: u8 = 7;

    // Data or key of another length than defined.
    pub const BAD_LENGTH: u8 = 8;

    // No such record.
    pub const NO_RECORD: u8 = 9;

    // A forbidden duplicate would stand.
    pub const DUPLICATE: u8 = 10;

    // No page in range has the room and a free line.
    pub const NO_ROOM: u8 = 11;

    // READ's output is shorter than the data.
    pub const SHORT_OUTPUT: u8 = 12;

    pub fn done(reference: u32, kind: u16, count: u16) -> Self
        ensures { result ≡ done_with reference kind count }
    {
        Self {
            code: 0,
            reference,
            kind,
            count,
        }
    }

    pub fn refused(code: u8) -> Self
        ensures { result ≡ refused_with code }
    {
        Self {
            code,
            reference: 0,
            kind: 0,
            count: 0,
        }
    }
}

// Why a call is refused.
#[derive(Clone, Copy, Debug, PartialEq, Eq)]
pub enum Refusal {
    BadTable,
    BadSize,
    Damaged,
    BadCurrency,
    Unknown,
    NoCurrent,
    WrongKind,
    BadLength,
    NoRecord,
    Duplicate,
    NoRoom,
    ShortOutput,
}

impl Refusal {
    // Its number, an answer's code.
    pub fn code(self) -> u8
        ensures { result ≡ refusal_number self }
    {
        match self {
            Refusal::BadTable => Answer::BAD_TABLE,
            Refusal::BadSize => Answer::BAD_SIZE,
            Refusal::Damaged => Answer::DAMAGED,
            Refusal::BadCurrency => Answer::BAD_CURRENCY,
            Refusal::Unknown => Answer::UNKNOWN,
            Refusal::NoCurrent => Answer::NO_CURRENT,
            Refusal::WrongKind => Answer::WRONG_KIND,
            Refusal::BadLength => Answer::BAD_LENGTH,
            Refusal::NoRecord => Answer::NO_RECORD,
            Refusal::Duplicate => Answer::DUPLICATE,
            Refusal::NoRoom => Answer::NO_ROOM,
            Refusal::ShortOutput => Answer::SHORT_OUTPUT,
        }
    }
}

// The current record of the run, of each type and of each chain: codes in table order, 0 where there is none, as in the links of a file and as C
// lends them.
#[derive(Clone, Copy)]
pub struct Currency {
    pub run: u32,
    pub types: [u32; 16],
    pub chains: [u32; 16],
}

impl Currency {
    pub fn none() -> Self
        ensures { result ≡ unset }
    {
        Self {
            run: 0,
            types: [0; 16],
            chains: [0; 16],
        }
    }
}

// What a call hands back.
#[derive(Clone, Copy)]
pub struct Outcome {
    pub answer: Answer,
    pub currency: Currency,
}

impl Outcome {
    pub fn done(answer: Answer, currency: Currency) -> Self
        ensures { result ≡ outcome answer currency }
    {
        Self { answer, currency }
    }

    // A refusal hands the currency back as it came.
    pub fn refused(code: u8, currency: Currency) -> Self
        ensures { result ≡ refusal code currency }
    {
        Self {
            answer: Answer::refused(code),
            currency,
        }
    }

    // What a call came to, `currency` as it came.
    pub fn of(came: Result<Self, Refusal>, currency: Currency) -> Self
        ensures { result ≡ outcome_of came currency }
    {
        match came {
            Ok(done) => done,
            Err(why) => Self::refused(why.code(), currency),
        }
    }
}

// The write of a journal that is due: of a call the image of a page, ready, a page stored, done; of recovery a page put back, the journal emptied.
#[derive(Clone, Copy, Debug, PartialEq, Eq)]
pub enum Due {
    Image(usize),
    Ready,
    Store(usize),
    Done,
    Back(usize),
    Empty,
}

impl Due {
    // The write of a number, for who keeps it as one: 1 to 4 of a call, 5 and 6 of recovery; none of any other. Where the write is of no page,
    // `page` is not looked at.
    #[tactic(auto, unfolding(crate::specs::Journal::Dues::due_of))]
    pub fn of(phase: u8, page: usize) -> Option<Self>
        ensures { result ≡ due_of phase page }
    {
        match phase {
            1 => Some(Due::Image(page)),
            2 => Some(Due::Ready),
            3 => Some(Due::Store(page)),
            4 => Some(Due::Done),
            5 => Some(Due::Back(page)),
            6 => Some(Due::Empty),
            _ => None,
        }
    }
}
