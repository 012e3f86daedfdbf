// Calculated records of one type with one key.
ghost use Rattle.std.specs.Prelude.{ℕ, ◌≡◌, length};
ghost use Rattle.ledger.specs.Numbers.{or_none};
ghost use Rattle.audit_model.specs.Twins.{are_twins, calculated_at, gather_on, code_from, lower, lower_twin, lowest_from, twin_among, twin_fault};

use crate::sorting;
use page::{bytes, lookup};
use table::{keys, words};

// As many records as the largest file has lines.
pub const MOST: usize = 8064;

// 2^LEVELS is no less.
const LEVELS: u8 = 13;

// Whether two records have one type and one key.
fn are_twins(table: &[u16], file: &[u8], a: u16, b: u16) -> bool
    ensures { result ≡ are_twins table.now file.now a b }
{
    bytes::two_at(file, a as usize) == bytes::two_at(file, b as usize)
        && keys::same_key(
            sorting::key_from(table, file, a),
            sorting::key_from(table, file, b),
        )
}

// Where a code's record starts if it is calculated.
fn calculated_at(table: &[u16], file: &[u8], code: u32) -> Option<u16>
    ensures { result ≡ or_none (calculated_at table.now file.now code) }
{
    let s = lookup::find(file, code)?;
    let kind = bytes::two_at(file, s);
    words::is_calculated(table, kind).then_some((s % 65536) as u16)
}

// Puts where each calculated record starts into `list`; how many there are. A count, and no part of the list handed back: `gather_on` says
// what all of the list is after it.
fn gather(table: &[u16], file: &[u8], list: &mut [u16]) -> usize
    ensures { gather_on table.now file.now list.old ≡ (result, list.new) }
{
    let mut n: usize = 0;
    let pages = words::word(table, words::PAGES) as u32;
    for code in 64..64 * (pages + 1) {
        if let Some(s) = calculated_at(table, file, code) {
            if n < list.len() {
                list[n] = s;
                n += 1;
            }
        }
    }
    n
}

// The code of the record that starts at `s`.
fn code_from(file: &[u8], s: u16) -> u32
    ensures { result ≡ code_from file.now s }
{
    64 * (s as u32 / 512 + 1) + lookup::line_at(file, s as usize) as u32 % 64
}

// The lower of a code and the lowest before it.
fn lower(lowest: Option<u32>, code: u32) -> u32
    ensures { (n : ℕ) → lowest ≡ or_none n → result ≡ lower n code }
{
    lowest.unwrap_or(code).min(code)
}

// `lowest`, or a lower one of two codes if their records are twins.
fn lower_twin(table: &[u16], file: &[u8], lowest: Option<u32>, a: u16, b: u16) -> Option<u32>
    ensures { (n : ℕ) → lowest ≡ or_none n → result ≡ or_none (lower_twin table.now file.now n a b) }
{
    if !are_twins(table, file, a, b) {
        return lowest;
    }
    let first = lower(lowest, code_from(file, a));
    Some(lower(Some(first), code_from(file, b)))
}

// The lowest code among twins that stand side by side in a sorted list.
fn lowest_twin(table: &[u16], file: &[u8], list: &[u16]) -> Option<u32>
    ensures { result ≡ or_none (lowest_from table.now file.now 0 list.now) }
{
    let mut lowest = None;
    for pair in list.windows(2) {
        lowest = lower_twin(table, file, lowest, pair[0], pair[1]);
    }
    lowest
}

// The lowest code that has a twin among the calculated records that `list` has room for.
fn twin_among(table: &[u16], file: &[u8], list: &mut [u16], scratch: &mut [u16]) -> Option<u32>
    ensures { result ≡ or_none (twin_among table.now file.now (length list.old) (length scratch.old)) }
{
    let n = gather(table, file, list);
    let gathered = &mut list[..n];
    sorting::sort(table, file, gathered, scratch, LEVELS);
    lowest_twin(table, file, gathered)
}

// The lowest code that has a calculated twin.
pub fn twin_fault(table: &[u16], file: &[u8]) -> Option<u32>
    ensures { result ≡ or_none (twin_fault table.now file.now) }
{
    let mut list = [0u16; MOST];
    let mut scratch = [0u16; MOST];
    twin_among(table, file, &mut list, &mut scratch)
}
