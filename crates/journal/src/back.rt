// The images of a journal's last group, put back into the file.
ghost use Rattle.std.specs.Prelude.{◌≡◌, length};
ghost use Rattle.restore_model.specs.Walks.{image_at, next_image, page_put, back_from, untold, restored_on, recovery_on, status};
ghost use Rattle.ledger.specs.Journal.Promises.{Restores};

use crate::{text, walk};
use change::copies;
use page::{bytes, lookup, writes};
use restore_model::{Group, Refused, Walk};
use std::array;

// The page in the image that starts at `at`.
fn image_at(journal: &[u8], at: usize) -> [u8; 512]
    ensures { result ≡ image_at journal.now at }
{
    array::from_fn(|i| walk::hex_at(journal, at, 4 + 2 * i))
}

// Where the line after that image starts.
#[tactic(auto, unfolding(restore_model::specs::Walks::next_image))]
fn next_image(journal: &[u8], at: usize) -> usize
    ensures { result ≡ next_image journal.now at }
{
    if journal.len().saturating_sub(at) <= text::IMAGE_LINE as usize {
        return journal.len();
    }
    at + text::IMAGE_LINE as usize
}

// Puts the image that starts at `at` into the page at `place`, counted from 0, and tells it in `stored`.
#[tactic(auto, unfolding(restore_model::specs::Walks::page_put))]
fn put_page(file: &mut [u8], stored: &mut [u8], journal: &[u8], at: usize, place: u16)
    ensures { page_put file.old stored.old journal.now at place ≡ (file.new, stored.new) }
{
    let page = image_at(journal, at);
    copies::put_part(file, lookup::PAGE_BYTES * place as usize, &page);
    writes::put_byte(stored, place as usize, 1);
}

// Puts back the images from `from` on, up to the ready line, and tells their pages in `stored`.
fn put_back(file: &mut [u8], stored: &mut [u8], journal: &[u8], from: usize)
    ensures { back_from journal.now file.old stored.old from (length journal.now) ≡ (file.new, stored.new) }
{
    let mut at = from;
    // There are fewer images than bytes.
    for image in 0..journal.len() {
        let number = walk::page_said(journal, at);
        if number == text::READY_NUMBER {
            return;
        }
        put_page(file, stored, journal, at, number - 1);
        at = next_image(journal, at);
    }
}

// Tells none of `n` pages, at most 128.
#[tactic(auto, unfolding(restore_model::specs::Walks::untold))]
fn tell_none(stored: &mut [u8], n: u8)
    ensures { untold stored.old n ≡ stored.new }
{
    let zeros = [0u8; 128];
    copies::put_part(stored, 0, bytes::part_of(&zeros, 0, n as usize));
}

// Puts the last group of a walked journal back where it has a ready and no done.
#[tactic(auto, unfolding(restore_model::specs::Walks::restored_on))]
pub fn restore(file: &mut [u8], journal: &[u8], stored: &mut [u8], n: u8, w: Walk)
    ensures { restored_on file.old journal.now stored.old n w ≡ (file.new, stored.new) }
{
    tell_none(stored, n);
    if w.group == Group::Readied {
        put_back(file, stored, journal, w.from);
    }
}

// Recovers the file, and tells in `stored` the pages put back. Where it is refused nothing is changed.
#[tactic(auto, unfolding(restore_model::specs::Walks::recovery_on))]
pub fn recover(file: &mut [u8], journal: &[u8], stored: &mut [u8]) -> Result<(), Refused>
    ensures computed { recovery_on file.old journal.now stored.old ≡ (result, file.new, stored.new) }
    ensures restores { Restores file.old journal.now stored.old (status result) file.new stored.new }
{
    let n = text::pages_in(file.len()).ok_or(Refused::BadSize)?;
    if stored.len() < n as usize {
        return Err(Refused::BadSize);
    }
    let w = walk::walk(journal, n);
    if w.group == Group::Wrong {
        return Err(Refused::BadJournal);
    }
    restore(file, journal, stored, n, w);
    Ok(())
}
