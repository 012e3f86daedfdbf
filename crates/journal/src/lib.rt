// The journal for power loss, over lent memory: the text that a call writes before it changes the file, and recovery from a journal.
#![tactic(auto)]

pub mod back;
pub mod text;
pub mod walk;

ghost use Rattle.std.specs.Prelude.{◌≡◌};
ghost use Rattle.restore_model.specs.Texts.{differs, images_on};
ghost use Rattle.restore_model.specs.Walks.{recover_on};
ghost use Rattle.ledger.specs.Journal.Promises.{Tells, Starts, Restores};

use restore_model::Refused;

// The statuses of a recovery: numbers, as C reads them. It is done.
pub const RECOVERED: u8 = 0;

// The file's length is not that of 1 to 128 pages, or `stored` has too few bytes.
pub const BAD_SIZE: u8 = 2;

// A complete line of the journal is malformed or out of place.
pub const BAD_JOURNAL: u8 = 13;

// There is no text, or no room for it: a number, as C reads it.
pub const NO_TEXT: u32 = 4294967295;

// 1 where page `page` differs.
pub fn gerunjap_changed(before: &[u8], after: &[u8], page: u32) -> u8
    ensures computed { result ≡ differs before.now after.now page }
    ensures tells { Tells before.now after.now page result }
{
    text::differs(before, after, page as usize) as u8
}

// Puts the journal text of a call that changes the file from `before` to `after`, up to its ready line, into `out`; its length, 0 where no page
// differs. 4294967295, with nothing written, where the lengths differ or are not those of 1 to 128 pages, or `out` has no room for all of it.
pub fn gerunjap_images(before: &[u8], after: &[u8], out: &mut [u8]) -> u32
    ensures computed { images_on before.now after.now out.old ≡ (result, out.new) }
    ensures starts { Starts before.now after.now out.old result out.new }
{
    text::put_text(before, after, out).unwrap_or(NO_TEXT)
}

// Puts back into the file the images of a journal's last group where its ready has no done; stored[p - 1] is 1 for each page put back, and 0 for the
// others. BAD_SIZE or BAD_JOURNAL, and then nothing is changed.
pub fn gerunjap_recover(file: &mut [u8], journal: &[u8], stored: &mut [u8]) -> u8
    ensures computed { recover_on file.old journal.now stored.old ≡ (result, file.new, stored.new) }
    ensures restores { Restores file.old journal.now stored.old result file.new stored.new }
{
    match back::recover(file, journal, stored) {
        Ok(()) => RECOVERED,
        Err(Refused::BadSize) => BAD_SIZE,
        Err(Refused::BadJournal) => BAD_JOURNAL,
    }
}
