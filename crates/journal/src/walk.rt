// A journal walked once, byte by byte: what its last group is, and where it starts.
ghost use Rattle.std.specs.Prelude.{◌≡◌, ◌+◌};
ghost use Rattle.restore_model.specs.Walks.{hex_at, page_said, mark_said, image_said, said_in, rises, group_after, from_after, line_read, byte_read, walk_on};

use crate::text;
use frames::hex;
use page::bytes;
use restore_model::{Group, Said, Walk};

// The byte in the two digits from `at + k` on.
#[tactic(auto, unfolding(restore_model::specs::Walks::hex_at))]
pub fn hex_at(journal: &[u8], at: usize, k: usize) -> u8
    ensures { result ≡ hex_at journal.now (at + k) }
{
    if journal.len().saturating_sub(at) <= k {
        return 0;
    }
    let high = hex::digit_value(journal[at + k]);
    let low = hex::digit_value(bytes::byte_at(journal, at + k + 1));
    high % 16 * 16 + low % 16
}

// The number in the four digits from `at` on: a page, or that of a ready or done line.
// A number and no enum: the file stores it, and what it says depends on the line's length too.
#[tactic(auto, unfolding(restore_model::specs::Walks::page_said))]
pub fn page_said(journal: &[u8], at: usize) -> u16
    ensures { result ≡ page_said journal.now at }
{
    let high = hex_at(journal, at, 0) as u16;
    let low = hex_at(journal, at, 2) as u16;
    high * 256 + low
}

// What the line says that starts at `start` and whose line end is the last byte before `next`; `good` is whether it has digits only.
#[tactic(auto, unfolding(restore_model::specs::Walks::said_in))]
fn line_says(journal: &[u8], n: u8, start: usize, next: usize, good: bool) -> Said
    ensures { result ≡ said_in n journal.now start next good }
{
    if !good || next < start {
        return Said::Malformed;
    }
    let number = page_said(journal, start);
    let size = next - start;
    if size == text::MARK_LINE as usize {
        return mark_said(number);
    }
    if size == text::IMAGE_LINE as usize {
        return image_said(n, number);
    }
    Said::Malformed
}

// What a line of a number alone says.
#[tactic(auto, unfolding(restore_model::specs::Walks::mark_said))]
fn mark_said(number: u16) -> Said
    ensures { result ≡ mark_said number }
{
    match number {
        text::READY_NUMBER => Said::Ready,
        text::DONE_NUMBER => Said::Done,
        _ => Said::Malformed,
    }
}

// What a line of a number and 512 bytes says.
#[tactic(auto, unfolding(restore_model::specs::Walks::image_said))]
fn image_said(n: u8, page: u16) -> Said
    ensures { result ≡ image_said n page }
{
    if page == 0 || (n as u16) < page {
        return Said::Malformed;
    }
    Said::Image(page)
}

// Whether a page is above what the line before it said.
fn rises(last: Said, page: u16) -> bool
    ensures { result ≡ rises last page }
{
    match last {
        Said::Image(before) => before < page,
        Said::Ready => 0 < page,
        Said::Done | Said::Malformed => false,
    }
}

// The group after a line, where the line before it said `last`.
fn group_after(group: Group, last: Said, said: Said) -> Group
    ensures { result ≡ group_after group last said }
{
    match (group, said) {
        (Group::Finished, Said::Image(_)) => Group::Imaged,
        (Group::Imaged, Said::Image(page)) if rises(last, page) => Group::Imaged,
        (Group::Imaged, Said::Ready) => Group::Readied,
        (Group::Readied, Said::Done) => Group::Finished,
        _ => Group::Wrong,
    }
}

// Where the group starts after a line that starts at `start`.
fn from_after(group: Group, from: usize, start: usize) -> usize
    ensures { result ≡ from_after group from start }
{
    match group {
        Group::Finished => start,
        _ => from,
    }
}

// Reads a line that ends before `next`.
#[tactic(auto, unfolding(restore_model::specs::Walks::line_read))]
fn read_line(journal: &[u8], n: u8, w: Walk, next: usize) -> Walk
    ensures { result ≡ line_read n journal.now w next }
{
    let said = line_says(journal, n, w.start, next, w.good);
    Walk {
        group: group_after(w.group, w.last, said),
        last: said,
        from: from_after(w.group, w.from, w.start),
        start: next,
        good: true,
    }
}

// Reads the byte before `next`.
#[tactic(auto, unfolding(restore_model::specs::Walks::byte_read))]
fn read_byte(journal: &[u8], n: u8, w: Walk, next: usize, c: u8) -> Walk
    ensures { result ≡ byte_read n journal.now w next c }
{
    if c == text::LINE_END {
        return read_line(journal, n, w, next);
    }
    if hex::NO_DIGIT <= hex::digit_value(c) {
        return Walk { good: false, ..w };
    }
    w
}

// Walks a journal of a file of `n` pages.
pub fn walk(journal: &[u8], n: u8) -> Walk
    ensures { result ≡ walk_on n journal.now }
{
    let mut w = Walk {
        group: Group::Finished,
        last: Said::Ready,
        from: 0,
        start: 0,
        good: true,
    };
    for (i, c) in journal.iter().enumerate() {
        w = read_byte(journal, n, w, i + 1, *c);
    }
    w
}
