// The journal for C: what a call writes before it changes the file, and recovery (bindings/c/gerunjap_journal.h).
#![tactic(auto)]

ghost use Rattle.std.specs.Prelude.{◌≡◌};
ghost use Rattle.restore_model.specs.Texts.{differs, images_on};
ghost use Rattle.restore_model.specs.Walks.{recover_on};
ghost use Rattle.ledger.specs.Journal.Promises.{Tells, Starts, Restores};

// 1 where page `page` differs.
#[unsafe(no_mangle)]
pub extern "C" fn gerunjap_changed(before: &[u8], after: &[u8], page: u32) -> u8
    ensures computed { result ≡ differs before.now after.now page }
    ensures tells { Tells before.now after.now page result }
{
    journal::gerunjap_changed(before, after, page)
}

// Puts the journal text of a call that changes the file from `before` to `after`, up to its ready line, into `out`; its length, 0 where no page
// differs. 4294967295, with nothing written, where the lengths differ or are not those of 1 to 128 pages, or `out` has no room for all of it.
#[unsafe(no_mangle)]
pub extern "C" fn gerunjap_images(before: &[u8], after: &[u8], out: &mut [u8]) -> u32
    ensures computed { images_on before.now after.now out.old ≡ (result, out.new) }
    ensures starts { Starts before.now after.now out.old result out.new }
{
    journal::gerunjap_images(before, after, out)
}

// Puts back into the file the images of a journal's last group where its ready has no done; stored[p - 1] is 1 for each page put back, and 0 for the
// others. BAD_SIZE or BAD_JOURNAL, and then nothing is changed.
#[unsafe(no_mangle)]
pub extern "C" fn gerunjap_recover(file: &mut [u8], journal: &[u8], stored: &mut [u8]) -> u8
    ensures computed { recover_on file.old journal.now stored.old ≡ (result, file.new, stored.new) }
    ensures restores { Restores file.old journal.now stored.old result file.new stored.new }
{
    journal::gerunjap_recover(file, journal, stored)
}
