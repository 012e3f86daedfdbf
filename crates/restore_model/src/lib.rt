// What the journal's functions compute on lists: definitions and their laws, and the values that a walk over a journal carries.
#![tactic(auto)]

ghost use Rattle.std.specs.Prelude.{◌≡◌};
ghost use Rattle.restore_model.specs.Walks.{group_of};

// What a complete line says: the image of a page of the file, ready, done; or it is malformed.
#[derive(Clone, Copy, Debug, PartialEq, Eq)]
pub enum Said {
    Image(u16),
    Ready,
    Done,
    Malformed,
}

// The last group so far: it is done, or there is none; images; images and a ready. Or some line was malformed or out of place.
#[derive(Clone, Copy, Debug, PartialEq, Eq)]
pub enum Group {
    Finished,
    Imaged,
    Readied,
    Wrong,
}

impl Group {
    // The group of a number: 0, 1 and 2 for the first three, another for wrong.
    #[tactic(auto, unfolding(crate::specs::Walks::group_of))]
    pub fn of(number: u8) -> Self
        ensures { result ≡ group_of number }
    {
        match number {
            0 => Group::Finished,
            1 => Group::Imaged,
            2 => Group::Readied,
            _ => Group::Wrong,
        }
    }
}

// Where a walk over a journal stands: the last group, what the last line said (ready before the first), where the group's first line starts, where
// this line starts, and whether it has digits only. `last` and `from` stand beside the group, since they are told of a finished and a wrong one too.
// A flag beside the start and no Option: `start` moves on at every line end, whatever `good` says, so an Option of it is no plainer.
#[derive(Clone, Copy)]
pub struct Walk {
    pub group: Group,
    pub last: Said,
    pub from: usize,
    pub start: usize,
    pub good: bool,
}

// Why a recovery is refused: the file's length is not that of 1 to 128 pages, or there is no room to tell its pages; or the journal is malformed.
#[derive(Clone, Copy, Debug, PartialEq, Eq)]
pub enum Refused {
    BadSize,
    BadJournal,
}
