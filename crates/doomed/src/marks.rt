// The set that goes: a byte of marks for each code, 0 where its record stays.
// Marks are bytes that are lent and no struct of an array: `mark_below`, `currency_after` and `act` promise their answers on any number of bytes,
// and an array would ask for its own length.
ghost use Rattle.std.specs.Prelude.{◌≡◌};
ghost use Rattle.delete_model.specs.Marks.{goes_in, first_in, first_below_in, next_below_in, marked_on};

use model::Below;
use page::{bytes, fields, writes};
use table::words;

// A mark for each code that a file can have, and for code 0.
pub const MARKS: usize = 8256;

// Chains that a table can have.
const CHAINS: u16 = 16;

// More than the details that a record can have in all chains together.
const DETAILS: u32 = 200000;

// Whether a code is marked.
pub fn goes(marks: &[u8], code: u32) -> bool
    ensures { result ≡ goes_in marks.now code }
{
    bytes::byte_at(marks, code as usize) != 0
}

// The first detail of `code` in chain `j`. A NEXT of 0 leads to no record.
fn first_in(table: &[u16], file: &[u8], code: u32, kind: u16, j: u16) -> Option<u32>
    ensures { result ≡ first_in table.now file.now code kind j }
{
    if !words::is_master(table, j, kind) {
        return None;
    }
    let next = fields::next_at(table, file, j, code);
    if next == code || next == 0 {
        return None;
    }
    Some(next)
}

// The first detail of `code` in the chains from `j` on where it is master. At most sixteen are looked at, whatever the table says.
fn first_below(table: &[u16], file: &[u8], code: u32, kind: u16, j: u16) -> Option<Below>
    ensures { result ≡ first_below_in table.now file.now code kind j }
{
    let end = words::word(table, words::CHAINS).min(j.saturating_add(CHAINS));
    for chain in j..end {
        if let Some(first) = first_in(table, file, code, kind, chain) {
            return Some(Below { chain, code: first });
        }
    }
    None
}

// The detail of `code` after another, in its chain or the next that has one.
fn next_below(table: &[u16], file: &[u8], code: u32, kind: u16, at: Below) -> Option<Below>
    ensures { result ≡ next_below_in table.now file.now code kind at }
{
    let chain = at.chain;
    let next = fields::next_at(table, file, chain, at.code);
    if next == code {
        if CHAINS <= chain {
            return None;
        }
        return first_below(table, file, code, kind, chain + 1);
    }
    if next == 0 {
        return None;
    }
    Some(Below { chain, code: next })
}

// Marks a record and all below it that are not yet marked, calling itself on each detail; how many it marked.
// Details have higher types, so `level`, the types left above this one, falls.
pub fn mark_below(table: &[u16], file: &[u8], marks: &mut [u8], level: u16, code: u32) -> u16
    ensures { marked_on table.now file.now level code marks.old ≡ (result, marks.new) }
{
    if goes(marks, code) {
        return 0;
    }
    writes::put_byte(marks, code as usize, 1);
    if level == 0 {
        return 1;
    }
    let kind = fields::kind_at(file, code);
    let mut count: u16 = 1;
    let mut below = first_below(table, file, code, kind, 0);
    for turn in 0..DETAILS {
        let Some(at) = below else {
            return count;
        };
        count = count.wrapping_add(mark_below(table, file, marks, level - 1, at.code));
        below = next_below(table, file, code, kind, at);
    }
    count
}
