// The one lookup of a record by its code.
ghost use Rattle.std.specs.Prelude.{◌≡◌, ◌≤◌, ◌<◌, ◌⊎◌, ◌+◌, length, MatchOption};
ghost use Rattle.ledger.specs.Bytes.{size_at, line_at, page_start};
ghost use Rattle.ledger.specs.Numbers.{or_none};
ghost use Rattle.model.specs.Reads.{line_in, place_in};

use crate::bytes;

pub const PAGE_BYTES: usize = 512;

pub const HEADER_BYTES: usize = 16;

// The lines of a page: 1 to 63.
pub const LINES: u8 = 63;

// From here on a page has no room for the head of a record.
pub const LAST_HEAD: usize = 508;

// The size in the head of a record that starts at `at`.
pub fn size_at(f: &[u8], at: usize) -> u16
    ensures { result ≡ size_at f.now at }
{
    if at < f.len() {
        bytes::two_at(f, at + 2)
    } else {
        0
    }
}

// The line in the head of a record that starts at `at`.
pub fn line_at(f: &[u8], at: usize) -> u8
    ensures { result ≡ line_at f.now at }
{
    if at < f.len() {
        bytes::byte_at(f, at + 4)
    } else {
        0
    }
}

// Where the record of a line starts in a page.
pub fn find_line(page: &[u8], line: u8) -> Option<u16>
    ensures { result ≡ or_none (line_in page.now line) }
{
    let mut at = HEADER_BYTES;
    for _turn in 0..LINES {
        if LAST_HEAD <= at {
            return None;
        }
        let size = size_at(page, at);
        if size == 0 {
            return None;
        }
        if line_at(page, at) == line {
            return Some(at as u16);
        }
        at += size as usize;
    }
    None
}

// Where page `p` starts in a file that has all of it.
pub fn start_of(file: &[u8], p: u32) -> Option<usize>
    ensures { MatchOption result ((p ≡ 0) ⊎ (length file.now < page_start p + 512)) (λ start. (start ≡ page_start p) × (1 ≤ p) × (start + 512 ≤ length file.now)) }
{
    let start = PAGE_BYTES * (p as usize).checked_sub(1)?;
    if start + PAGE_BYTES <= file.len() {
        Some(start)
    } else {
        None
    }
}

// Where the record of a code starts in the file.
pub fn find(file: &[u8], code: u32) -> Option<usize>
    ensures { result ≡ or_none (place_in file.now code) }
{
    let start = start_of(file, code / 64)?;
    let at = find_line(&file[start..start + PAGE_BYTES], (code % 64) as u8)?;
    Some(start + at as usize)
}
