// A record put into its page or taken out, through a second page of scratch; and a fresh page.
ghost use Rattle.std.specs.Prelude.{◌≡◌, ◌+◌, ◌%◌, ◌^◌};
ghost use Rattle.ledger.specs.Bytes.{two_at};
ghost use Rattle.model.specs.Room.{flags_at};
ghost use Rattle.model.specs.Moves.{opened_byte, closed_byte, fill, opened_up, closed_up, flags_put, counts_put, less_by, head_put, fields_put, record_put, record_taken, line_taken, page_made, put_in, take_out, file_made};

use change::copies;
use model::Gap;
use page::{bytes, lookup, room, writes};

// The pages that a file has at most.
const MOST_PAGES: u8 = 128;

// What stands at `i` of a page once `n` bytes are opened at `at`: zeros there, and the rest moved up.
#[tactic(auto, unfolding(model::specs::Moves::opened_byte))]
fn opened_byte(page: &[u8], at: usize, n: usize, i: usize) -> u8
    ensures { result ≡ opened_byte page.now at n i }
{
    if i < at {
        bytes::byte_at(page, i)
    } else if i - at < n {
        0
    } else {
        bytes::byte_at(page, i - n)
    }
}

// A page with `n` bytes opened at `at`.
fn opened_page(page: &[u8], at: usize, n: usize) -> [u8; 512]
    ensures { result ≡ fill (opened_byte page.now at n) }
{
    std::array::from_fn(|i| opened_byte(page, at, n, i))
}

// What stands at `i` of a page once `n` bytes at `at` are closed up: the rest moved down, and zeros behind it.
#[tactic(auto, using(crate::proofs::Laws::Moves::rest_byte), unfolding(model::specs::Moves::closed_byte))]
fn closed_byte(page: &[u8], at: usize, n: usize, i: usize) -> u8
    ensures { result ≡ closed_byte page.now at n i }
{
    if i < at {
        bytes::byte_at(page, i)
    } else {
        bytes::byte_at(bytes::rest_of(page, i), n)
    }
}

// A page with `n` bytes at `at` closed up.
fn closed_page(page: &[u8], at: usize, n: usize) -> [u8; 512]
    ensures { result ≡ fill (closed_byte page.now at n) }
{
    std::array::from_fn(|i| closed_byte(page, at, n, i))
}

// Opens `n` bytes at `at` in a page, through a page of scratch.
#[tactic(auto, unfolding(model::specs::Moves::opened_up))]
fn open_up(page: &mut [u8], at: usize, n: usize)
    ensures { opened_up page.old at n ≡ page.new }
{
    let scratch = opened_page(page, at, n);
    writes::put_part(page, 0, &scratch);
}

// Closes a page up over `n` bytes at `at`.
#[tactic(auto, unfolding(model::specs::Moves::closed_up))]
fn close_up(page: &mut [u8], at: usize, n: usize)
    ensures { closed_up page.old at n ≡ page.new }
{
    let scratch = closed_page(page, at, n);
    writes::put_part(page, 0, &scratch);
}

// Eight bytes of flags.
fn put_flags(page: &mut [u8], flags: u64)
    ensures { flags_put page.old flags ≡ page.new }
{
    writes::put_part(page, 5, &flags.to_be_bytes());
}

#[tactic(auto, unfolding(model::specs::Moves::counts_put))]
fn put_counts(page: &mut [u8], free: u16, flags: u64)
    ensures { counts_put page.old free flags ≡ page.new }
{
    copies::put_two(page, 3, free);
    put_flags(page, flags);
}

// The counts of a page with a record more or less. They wrap, so that no page's bytes make a sum fail.
#[tactic(auto, unfolding(model::specs::Moves::less_by))]
fn free_less(page: &[u8], size: u16) -> u16
    ensures { result ≡ less_by (2 ^ 16) (two_at page.now 3) size }
{
    room::free_bytes(page).wrapping_sub(size)
}

fn free_more(page: &[u8], size: u16) -> u16
    ensures { result ≡ (two_at page.now 3 + size) % 2 ^ 16 }
{
    room::free_bytes(page).wrapping_add(size)
}

fn flags_with(page: &[u8], line: u8) -> u64
    ensures { result ≡ (flags_at page.now + 2 ^ (line % 64)) % 2 ^ 64 }
{
    room::flags_at(page).wrapping_add(room::bit_of(line))
}

#[tactic(auto, unfolding(model::specs::Moves::less_by))]
fn flags_without(page: &[u8], line: u8) -> u64
    ensures { result ≡ less_by (2 ^ 64) (flags_at page.now) (2 ^ (line % 64)) }
{
    room::flags_at(page).wrapping_sub(room::bit_of(line))
}

#[tactic(auto, unfolding(model::specs::Moves::head_put))]
fn put_head(page: &mut [u8], gap: Gap, kind: u16, size: u16)
    ensures { head_put page.old gap kind size ≡ page.new }
{
    let at = gap.at as usize;
    copies::put_two(page, at, kind);
    copies::put_two(page, at + 2, size);
    writes::put_byte(page, at + 4, gap.line);
}

// A record's head and data.
#[tactic(auto, unfolding(model::specs::Moves::fields_put))]
fn put_fields(page: &mut [u8], gap: Gap, kind: u16, size: u16, data: &[u8])
    ensures { fields_put page.old gap kind size «data».now ≡ page.new }
{
    let at = gap.at as usize;
    put_head(page, gap, kind, size);
    writes::put_part(page, at + 5, data);
}

// Opens room for a record in a page and writes its head and data; its links are 0.
#[tactic(auto, unfolding(model::specs::Moves::record_put))]
pub fn put_record(page: &mut [u8], gap: Gap, kind: u16, size: u16, data: &[u8])
    ensures { record_put page.old gap kind size «data».now ≡ page.new }
{
    let at = gap.at as usize;
    let free = free_less(page, size);
    let flags = flags_with(page, gap.line);
    open_up(page, at, size as usize);
    put_fields(page, gap, kind, size, data);
    put_counts(page, free, flags);
}

// Closes a page up over the record that starts at `at`.
#[tactic(auto, unfolding(model::specs::Moves::record_taken))]
pub fn take_record(page: &mut [u8], at: usize)
    ensures { record_taken page.old at ≡ page.new }
{
    let size = lookup::size_at(page, at);
    let line = lookup::line_at(page, at);
    let free = free_more(page, size);
    let flags = flags_without(page, line);
    close_up(page, at, size as usize);
    put_counts(page, free, flags);
}

// Takes a line's record out of its page.
fn take_line(page: &mut [u8], line: u8)
    ensures { line_taken page.old line ≡ page.new }
{
    if let Some(at) = lookup::find_line(page, line) {
        take_record(page, at as usize);
    }
}

// Puts a record of a type into page `p` at a gap.
pub fn put_in(file: &mut [u8], p: u32, gap: Gap, kind: u16, size: u16, data: &[u8])
    ensures { put_in file.old p gap kind size «data».now ≡ file.new }
{
    if let Some(start) = lookup::start_of(file, p) {
        let page = &mut file[start..start + lookup::PAGE_BYTES];
        put_record(page, gap, kind, size, data);
    }
}

// Takes a code's record out of its page.
pub fn take_out(file: &mut [u8], code: u32)
    ensures { take_out file.old code ≡ file.new }
{
    if let Some(start) = lookup::start_of(file, code / 64) {
        let page = &mut file[start..start + lookup::PAGE_BYTES];
        take_line(page, (code % 64) as u8);
    }
}

// Makes page `p` an empty one.
#[tactic(auto, unfolding(model::specs::Moves::page_made))]
fn format_page(page: &mut [u8], p: u8)
    ensures { page_made page.old p ≡ page.new }
{
    let header = 64 * p as u32;
    writes::put_part(page, 0, &[0; 512]);
    writes::put_three(page, 0, header);
    put_counts(page, 496, 1);
    writes::put_three(page, 13, header);
}

// Makes a file of empty pages.
pub fn format_file(file: &mut [u8])
    ensures { file_made file.old ≡ file.new }
{
    for p in 1..=MOST_PAGES {
        let Some(start) = lookup::start_of(file, p as u32) else {
            return;
        };
        format_page(&mut file[start..start + lookup::PAGE_BYTES], p);
    }
}
