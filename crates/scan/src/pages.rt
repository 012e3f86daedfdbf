// The pages phase: what a page's bytes and the table show. The table is lent as words and a page handed as a part of the file, with no
// struct about them: forms of the project (docs/PROOFS.md, "The forms").
ghost use Rattle.std.specs.Prelude.{◌≡◌, unwrap_or};
ghost use Rattle.ledger.specs.Numbers.{or_none};
ghost use Rattle.audit_model.specs.Scan.{stands, taken, zeros_from, ends, lines_in, scan_page, scan, ScanExact};

use page::{bytes, lookup, room};
use table::{sizes, words};

// Whether a record of a type has its type's size and may stand on page `p`.
#[tactic(auto, unfolding(audit_model::specs::Scan::stands))]
fn may_stand(table: &[u16], kind: u16, size: u16, p: u16) -> bool
    ensures { result ≡ stands table.now kind size p }
{
    words::is_defined(table, kind)
        && size as u32 == sizes::record_size(table, kind)
        && words::kind_word(table, kind, words::LOW_PAGE) <= p
        && p <= words::kind_word(table, kind, words::HIGH_PAGE)
}

// The bytes that `line` takes from `at` on, to be added up: 0 where no record of it begins there, None where one does that may not stand.
#[tactic(auto, unfolding(audit_model::specs::Scan::taken))]
fn taken_at(table: &[u16], page: &[u8], p: u16, at: usize, line: u8) -> Option<u16>
    ensures { unwrap_or result 65535 ≡ taken table.now page.now p at line }
{
    if lookup::line_at(page, at) != line {
        return Some(0);
    }
    let kind = bytes::two_at(page, at);
    let size = lookup::size_at(page, at);
    may_stand(table, kind, size, p).then_some(size)
}

// Whether the `n` bytes from `at` on are 0, as far as there are any.
fn zeros_from(page: &[u8], at: usize, n: usize) -> bool
    ensures { result ≡ zeros_from page.now at n }
{
    bytes::part_of(page, at, n).iter().all(|byte| *byte == 0)
}

// Whether a page whose last record ends at `at` ends with zeros and has those counts.
#[tactic(auto, unfolding(audit_model::specs::Scan::ends))]
fn ends_well(page: &[u8], at: usize, flags: u64) -> bool
    ensures { result ≡ ends page.now at flags }
{
    let free = lookup::PAGE_BYTES.saturating_sub(at);
    zeros_from(page, at, free)
        && room::free_bytes(page) as usize == free
        && room::flags_at(page) == flags
}

// Whether the records of a page stand as the table says, line by line, and its end and counts fit them.
fn scan_lines(table: &[u16], page: &[u8], p: u16) -> bool
    ensures { result ≡ lines_in table.now page.now p }
{
    let mut at = lookup::HEADER_BYTES;
    let mut flags: u64 = 1;
    for line in 1..64u8 {
        let Some(size) = taken_at(table, page, p, at, line) else {
            return false;
        };
        at += size as usize;
        if lookup::PAGE_BYTES < at {
            return false;
        }
        if 0 < size {
            flags += 1u64 << line;
        }
    }
    ends_well(page, at, flags)
}

// Whether a page, handed as a part of the file, is page `p` of a file under the table.
#[tactic(auto, unfolding(audit_model::specs::Scan::scan_page))]
pub fn scan_page(table: &[u16], page: &[u8], p: u16) -> bool
    ensures { result ≡ scan_page table.now page.now p }
{
    bytes::three_at(page, 0) == 64 * (p as u32) && scan_lines(table, page, p)
}

// The lowest faulty page of a file. Under an accepted table and in a file of its size there is none exactly where every page is the
// layout of records that stand as the table says; rings and keys are for later phases.
pub fn faulty_page(table: &[u16], file: &[u8]) -> Option<u16>
    ensures computed { result ≡ or_none (scan table.now file.now) }
    ensures exactly { ScanExact table.now file.now result }
{
    for p in 1..=words::word(table, words::PAGES) {
        let start = lookup::PAGE_BYTES * (p as usize - 1);
        let Some(page) = file.get(start..start + lookup::PAGE_BYTES) else {
            return Some(p);
        };
        if !scan_page(table, page, p) {
            return Some(p);
        }
    }
    None
}
