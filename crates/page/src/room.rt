// What a page has free: bytes, and its lowest free line.
ghost use Rattle.std.specs.Prelude.{◌≡◌, ◌%◌, ◌^◌};
ghost use Rattle.ledger.specs.Bytes.{two_at, page_in};
ghost use Rattle.model.specs.Room.{flags_at, first_gap};

use crate::{bytes, lookup};
use model::Gap;

// Page `p` of the file, or as many of its bytes as the file has.
#[tactic(auto, unfolding(ledger::specs::Bytes::page_in))]
pub fn page_of(file: &[u8], p: u32) -> &[u8]
    ensures { result.now ≡ page_in file.now p }
{
    if p == 0 {
        return &[];
    }
    let start = lookup::PAGE_BYTES * (p as usize - 1);
    bytes::part_of(file, start, lookup::PAGE_BYTES)
}

// The free bytes that a page's header says.
pub fn free_bytes(page: &[u8]) -> u16
    ensures { result ≡ two_at page.now 3 }
{
    bytes::two_at(page, 3)
}

// The lowest free line of a page: the first gap in the walk over its records. Line 0 where all are used,
// and no Option: `stored_on` (act_model) says what STORE writes at that gap too, line 0 and the walk's end.
pub fn first_gap(page: &[u8]) -> Gap
    ensures { result ≡ first_gap page.now }
{
    let mut at: u32 = lookup::HEADER_BYTES as u32;
    for line in 1..=lookup::LINES {
        if lookup::line_at(page, at as usize) != line {
            return Gap { line, at };
        }
        at += lookup::size_at(page, at as usize) as u32;
    }
    Gap { line: 0, at }
}

// The line flags of a page, as one number.
pub fn flags_at(page: &[u8]) -> u64
    ensures { result ≡ flags_at page.now }
{
    u64::from_be_bytes(bytes::bytes_at(page, 5))
}

// The flag of a line.
pub fn bit_of(line: u8) -> u64
    ensures { result ≡ 2 ^ (line % 64) }
{
    1 << (line % 64)
}
