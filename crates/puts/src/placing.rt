// Where STORE places a record.
ghost use Rattle.std.specs.Prelude.{◌≡◌, ◌-◌};
ghost use Rattle.std.specs.List.{find};
ghost use Rattle.ledger.specs.Numbers.{run, or_none};
ghost use Rattle.puts.specs.Classes.{class_named};
ghost use Rattle.act_model.specs.Placing.{occurrence_in, in_range, base_page_in, takes_in, place_for_in};

use crate::contents::Contents;
use ledger::Currency;
use looks::currency;
use page::room;
use table::{sizes, words};

// The master of the ring that holds chain `j`'s current record.
#[tactic(auto, unfolding(act_model::specs::Placing::occurrence_in))]
pub fn occurrence(table: &[u16], file: &[u8], cur: Currency, j: u16) -> u32
    ensures { result ≡ occurrence_in table.now file.now cur j }
{
    rings::master_of(table, file, j, currency::chain_current(cur, j))
}

// A page where it is in the type's range, else the type's lowest.
#[tactic(auto, unfolding(act_model::specs::Placing::in_range))]
fn page_in_range(table: &[u16], kind: u16, p: u32) -> u32
    ensures { result ≡ in_range table.now kind p }
{
    let low = u32::from(words::kind_word(table, kind, words::LOW_PAGE));
    let high = u32::from(words::kind_word(table, kind, words::HIGH_PAGE));
    if (low..=high).contains(&p) { p } else { low }
}

// How a type's records are placed.
enum Class {
    Primary,
    Secondary,
    Calculated,
}

impl From<u16> for Class {
    ghost from_gives = { λ word class. class ≡ class_named word };

    // By the word of the type's row.
    fn from(word: u16) -> Self {
        match word {
            2 => Class::Calculated,
            1 => Class::Secondary,
            _ => Class::Primary,
        }
    }
}

// The base page: by class.
#[tactic(auto, unfolding(act_model::specs::Placing::base_page_in))]
fn base_page(table: &[u16], file: &[u8], cur: Currency, new: Contents) -> u32
    ensures { result ≡ base_page_in table.now file.now cur new.entry.kind new.entry.«data».now }
{
    match Class::from(words::kind_word(table, new.kind, words::CLASS)) {
        Class::Calculated => new.home(table),
        Class::Secondary => {
            let via = words::kind_word(table, new.kind, words::VIA);
            page_in_range(table, new.kind, occurrence(table, file, cur, via) / 64)
        }
        Class::Primary => match currency::type_current(table, cur, new.kind) {
            0 => u32::from(words::kind_word(table, new.kind, words::LOW_PAGE)),
            current => current / 64,
        },
    }
}

// Whether a page has `size` bytes and a line free.
#[tactic(auto, unfolding(act_model::specs::Placing::takes_in))]
fn takes(file: &[u8], size: u32, p: u32) -> bool
    ensures { result ≡ takes_in file.now size p }
{
    let page = room::page_of(file, p);
    size <= u32::from(room::free_bytes(page)) && 0 < room::first_gap(page).line
}

// The first page from `start` on and before `end` that takes `size` bytes.
fn first_taking(file: &[u8], size: u32, start: u32, end: u32) -> Option<u32>
    ensures { result ≡ find (takes_in file.now size) (run start (end - start)) }
{
    (start..end).find(|&p| takes(file, size, p))
}

// The page that takes a record of a type: from the base up to the highest, then from the lowest.
pub fn place_for(table: &[u16], file: &[u8], cur: Currency, kind: u16, data: &[u8]) -> Option<u32>
    ensures { result ≡ or_none (place_for_in table.now file.now cur kind «data».now) }
{
    let low = u32::from(words::kind_word(table, kind, words::LOW_PAGE));
    let high = u32::from(words::kind_word(table, kind, words::HIGH_PAGE));
    let size = sizes::record_size(table, kind);
    let base = base_page(table, file, cur, Contents { kind, data });
    first_taking(file, size, base, high + 1).or_else(|| first_taking(file, size, low, base))
}
