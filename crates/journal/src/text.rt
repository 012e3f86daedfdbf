// The text of a call's images, ready line and done line.
// The files before and after stay two slices: the C interface lends them so, and most functions here pass them on as they came.
// An output stays whole, with a place in it: each promise says what its other bytes are.
ghost use Rattle.std.specs.Prelude.{◌≡◌};
ghost use Rattle.ledger.specs.Bytes.{page_in};
ghost use Rattle.restore_model.specs.Texts.{pages_in, apart, count_of, digits_put, image_put, changed_put, images_from, mark_put, start_put, text_on};

use frames::hex;
use page::{bytes, lookup, writes};

pub const LINE_END: u8 = 10;

// The numbers of a ready and of a done line, 0000 and FFFF, as the file stores them.
pub const READY_NUMBER: u16 = 0;

pub const DONE_NUMBER: u16 = 65535;

// The bytes of an image's line, and of a line of a number alone, with their line ends.
pub const IMAGE_LINE: u16 = 1029;

pub const MARK_LINE: u16 = 5;

// How many pages `size` bytes are, where that is 1 to 128.
#[tactic(auto, unfolding(restore_model::specs::Texts::pages_in, ledger::specs::Rules::between))]
pub fn pages_in(size: usize) -> Option<u8>
    ensures { result ≡ pages_in size }
{
    match size / lookup::PAGE_BYTES {
        n @ 1..=128 if size % lookup::PAGE_BYTES == 0 => Some(n as u8),
        _ => None,
    }
}

// Page `p` of the file, however high `p` is, or as many of its bytes as the file has.
#[tactic(auto, unfolding(ledger::specs::Bytes::page_in))]
fn page_in(file: &[u8], p: usize) -> &[u8]
    ensures { result.now ≡ page_in file.now p }
{
    if p == 0 || file.len() / lookup::PAGE_BYTES < p - 1 {
        return &[];
    }
    bytes::part_of(file, lookup::PAGE_BYTES * (p - 1), lookup::PAGE_BYTES)
}

// Page `p` differs.
pub fn differs(before: &[u8], after: &[u8], p: usize) -> bool
    ensures { result ≡ apart before.now after.now p }
{
    page_in(before, p) != page_in(after, p)
}

// How many of `n` pages differ.
pub fn count_of(before: &[u8], after: &[u8], n: u8) -> u16
    ensures { result ≡ count_of before.now after.now n }
{
    (0..n)
        .filter(|i| differs(before, after, *i as usize + 1))
        .count() as u16
}

// Puts bytes as digits from `at` on, as far as there is room.
fn put_digits(out: &mut [u8], at: usize, data: &[u8])
    ensures { digits_put out.old at «data».now ≡ out.new }
{
    let mut to = at;
    for byte in data {
        if out.len().saturating_sub(to) < 2 {
            return;
        }
        hex::put_hex(out, to, *byte);
        to += 2;
    }
}

// Puts the image of page `p`.
#[tactic(auto, unfolding(restore_model::specs::Texts::image_put))]
pub fn put_image(out: &mut [u8], at: u32, file: &[u8], p: usize)
    ensures { image_put out.old at file.now p ≡ out.new }
{
    let page = (p % 65536) as u16;
    put_digits(out, at as usize, &page.to_be_bytes());
    put_digits(out, at as usize + 4, page_in(file, p));
    writes::put_byte(out, at as usize + 1028, LINE_END);
}

// Puts the image of page `p` of `before` where the page differs; the length of what was put.
#[tactic(auto, unfolding(restore_model::specs::Texts::changed_put))]
fn put_changed(out: &mut [u8], at: u32, before: &[u8], after: &[u8], p: usize) -> u16
    ensures { changed_put out.old at before.now after.now p ≡ (result, out.new) }
{
    if !differs(before, after, p) {
        return 0;
    }
    put_image(out, at, before, p);
    IMAGE_LINE
}

// Puts the images of all pages that differ, rising; where they end.
fn put_images(out: &mut [u8], before: &[u8], after: &[u8], n: u8) -> u32
    ensures { images_from out.old 0 before.now after.now 1 n ≡ (result, out.new) }
{
    let mut at: u32 = 0;
    for i in 0..n {
        at += put_changed(out, at, before, after, i as usize + 1) as u32;
    }
    at
}

// Puts a line of a number alone: a ready or a done line.
#[tactic(auto, unfolding(restore_model::specs::Texts::mark_put))]
pub fn put_mark(out: &mut [u8], at: u32, number: u16)
    ensures { mark_put out.old at number ≡ out.new }
{
    put_digits(out, at as usize, &number.to_be_bytes());
    writes::put_byte(out, at as usize + 4, LINE_END);
}

// Puts the images and the ready line.
#[tactic(auto, unfolding(restore_model::specs::Texts::start_put))]
pub fn put_start(out: &mut [u8], before: &[u8], after: &[u8], n: u8)
    ensures { start_put out.old before.now after.now n ≡ out.new }
{
    let end = put_images(out, before, after, n);
    put_mark(out, end, READY_NUMBER);
}

// Puts the text of a call, up to its ready line; its length, 0 where no page differs. None, with nothing written, where the lengths differ or are
// not those of 1 to 128 pages, or `out` has no room for all of it.
pub fn put_text(before: &[u8], after: &[u8], out: &mut [u8]) -> Option<u32>
    ensures { text_on before.now after.now out.old ≡ (result, out.new) }
{
    if before.len() != after.len() {
        return None;
    }
    let n = pages_in(before.len())?;
    let count = count_of(before, after, n);
    if count == 0 {
        return Some(0);
    }
    let size = IMAGE_LINE as u32 * count as u32 + MARK_LINE as u32;
    if out.len() < size as usize {
        return None;
    }
    put_start(out, before, after, n);
    Some(size)
}
