// Which line or store is due: the writes of a call and of recovery, one at a time.
// A mark is a byte and no bool: recovery, lent to C, tells its pages so, and `first_of_recovery` and `next` read those too.
#![tactic(auto)]

ghost use Rattle.std.specs.Prelude.{◌≡◌, Some, ◌+◌, set};
ghost use Rattle.ledger.specs.declared.Due.TheVariants.{Image};
ghost use Rattle.ledger.specs.Journal.Dues.{marked, call_dues, recovery_dues, first_of};
ghost use Rattle.ledger.specs.Journal.Promises.{Marks, Follows, PutsLine};
ghost use Rattle.restore_model.specs.Texts.{differs, mark_put};
ghost use Rattle.restore_model.specs.Plans.{marked_after, call_first, recovery_first, due_next, marks_from, marks_on, where_room, line_on};

use journal::text;
use ledger::Due;
use page::{lookup, writes};

// The lowest page marked past page `after`.
fn marked_after(marks: &[u8], after: usize) -> Option<usize>
    ensures { result ≡ marked_after marks.now after }
{
    (after..marks.len()).find(|&i| marks[i] == 1).map(|i| i + 1)
}

// The first write of a call that changes the marked pages.
pub fn first_of_call(marks: &[u8]) -> Option<Due>
    ensures computed { result ≡ call_first marks.now }
    ensures begins { result ≡ first_of (call_dues (marked marks.now)) }
{
    marked_after(marks, 0).map(Due::Image)
}

// The first write of a recovery that puts the marked pages back.
pub fn first_of_recovery(marks: &[u8]) -> Option<Due>
    ensures computed { result ≡ recovery_first marks.now }
    ensures begins { result ≡ first_of (recovery_dues (marked marks.now)) }
{
    Some(marked_after(marks, 0).map_or(Due::Empty, Due::Back))
}

// The write after `due`; none after the last, and where nothing is due.
#[tactic(auto, using(restore_model::proofs::Both::follows_from))]
pub fn next(marks: &[u8], due: Option<Due>) -> Option<Due>
    ensures computed { result ≡ due_next marks.now due }
    ensures follows { Follows marks.now due result }
{
    let write = due?;
    match write {
        Due::Image(page) => Some(marked_after(marks, page).map_or(Due::Ready, Due::Image)),
        Due::Ready => Some(marked_after(marks, 0).map_or(Due::Done, Due::Store)),
        Due::Store(page) => Some(marked_after(marks, page).map_or(Due::Done, Due::Store)),
        Due::Back(page) => Some(marked_after(marks, page).map_or(Due::Empty, Due::Back)),
        Due::Done | Due::Empty => None,
    }
}

// Marks page `i + 1` by 1 where it differs, and by 0 where not.
fn put_mark(before: &[u8], after: &[u8], marks: &mut [u8], i: u8)
    ensures { set marks.old i (differs before.now after.now (i + 1)) ≡ marks.new }
{
    writes::put_byte(
        marks,
        i as usize,
        text::differs(before, after, i as usize + 1) as u8,
    );
}

// Marks each of the first `n` pages.
fn put_marks(before: &[u8], after: &[u8], marks: &mut [u8], n: u8)
    ensures { marks_from before.now after.now marks.old 0 n ≡ marks.new }
{
    for i in 0..n {
        put_mark(before, after, marks, i);
    }
}

// Marks the pages that a call from `before` to `after` changes: marks[p - 1] is 1 where page p differs, and 0 where not. How many pages the file
// has; none, with nothing marked, where the lengths differ or are not those of 1 to 128 pages, or `marks` has too few bytes.
pub fn mark(before: &[u8], after: &[u8], marks: &mut [u8]) -> Option<u8>
    ensures computed { marks_on before.now after.now marks.old ≡ (result, marks.new) }
    ensures marks { Marks before.now after.now marks.old result marks.new }
{
    if before.len() != after.len() {
        return None;
    }
    let n = text::pages_in(before.len())?;
    if marks.len() < n as usize {
        return None;
    }
    put_marks(before, after, marks, n);
    Some(n)
}

// Puts the image of page `page` of `before`; its length, none where `before` has no such page or `out` has no room.
fn put_image_line(before: &[u8], page: usize, out: &mut [u8]) -> Option<u16>
    ensures { line_on before.now (Some (Image page)) out.old ≡ (result, out.new) }
{
    if page == 0
        || before.len() / lookup::PAGE_BYTES < page
        || out.len() < text::IMAGE_LINE as usize
    {
        return None;
    }
    text::put_image(out, 0, before, page);
    Some(text::IMAGE_LINE)
}

// Puts a line of a number alone; its length, none where `out` has no room.
fn put_mark_line(out: &mut [u8], number: u16) -> Option<u16>
    ensures { where_room 5 out.old (mark_put out.old 0 number) ≡ (result, out.new) }
{
    if out.len() < text::MARK_LINE as usize {
        return None;
    }
    text::put_mark(out, 0, number);
    Some(text::MARK_LINE)
}

// Puts the line that is due at the front of `out`; its length. None, with nothing put, where no line is due, its page is none of `before`, or
// `out` has no room.
#[tactic(auto, using(restore_model::proofs::Both::puts_line_from), unfolding(restore_model::specs::Plans::line_on))]
pub fn put_line(before: &[u8], due: Option<Due>, out: &mut [u8]) -> Option<u16>
    ensures computed { line_on before.now due out.old ≡ (result, out.new) }
    ensures puts { PutsLine before.now due out.old result out.new }
{
    match due? {
        Due::Image(page) => put_image_line(before, page, out),
        Due::Ready => put_mark_line(out, text::READY_NUMBER),
        Due::Done => put_mark_line(out, text::DONE_NUMBER),
        Due::Store(_) | Due::Back(_) | Due::Empty => None,
    }
}
