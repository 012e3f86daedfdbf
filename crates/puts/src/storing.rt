// STORE: decided on a shared file, then carried out.
// Code 0 for no record stays a number: the entries of a currency hold it, as the file format's own null.
ghost use Rattle.std.specs.Prelude.{◌≡◌};
ghost use Rattle.ledger.specs.Answers.{number_of};
ghost use Rattle.act_model.specs.Storing.{lacks_current, store_twin, store_refusal, gap_in, places_by, place_at, entered_in, entered_all, calc_entered, calc_joined, stored_code, stored_with, stored_on};

use crate::contents::Contents;
use crate::placing;
use change::links;
use ledger::{Currency, Refusal};
use looks::currency;
use model::{Between, Gap};
use page::{fields, room};
use records::moves;
use std::array;
use table::{sizes, words};

// Whether a chain in which the type is detail has no current record.
fn lacks_current(table: &[u16], cur: Currency, kind: u16) -> bool
    ensures { result ≡ lacks_current table.now cur kind }
{
    (0..words::word(table, words::CHAINS)).any(|j| {
        words::is_detail(table, j, kind) && currency::chain_current(cur, j) == 0
    })
}

// Whether a new record would be a forbidden duplicate in the occurrence of a chain in which its type is detail.
fn any_twin(table: &[u16], file: &[u8], cur: Currency, new: Contents) -> bool
    ensures { result ≡ store_twin table.now file.now cur new.entry.kind new.entry.«data».now }
{
    (0..words::word(table, words::CHAINS)).any(|j| {
        words::is_detail(table, j, new.kind)
            && new.twin_under(table, file, j, placing::occurrence(table, file, cur, j), 0)
    })
}

// Whether STORE is refused before its place is looked for.
#[tactic(auto, unfolding(act_model::specs::Storing::store_refusal))]
pub fn store_refusal(
    table: &[u16],
    file: &[u8],
    cur: Currency,
    kind: u16,
    data: &[u8],
) -> Result<(), Refusal>
    ensures { number_of result ≡ store_refusal table.now file.now cur kind «data».now }
{
    if !words::is_defined(table, kind) {
        return Err(Refusal::Unknown);
    }
    if lacks_current(table, cur, kind) {
        return Err(Refusal::NoCurrent);
    }
    if data.len() != usize::from(words::kind_word(table, kind, words::DATA_LENGTH)) {
        return Err(Refusal::BadLength);
    }
    if rings::calc_twin(table, file, kind, data, 0)
        || any_twin(table, file, cur, Contents { kind, data })
    {
        return Err(Refusal::Duplicate);
    }
    Ok(())
}

// The neighbours of a new record `x` in chain `j`: itself where it is the master.
#[tactic(auto, unfolding(act_model::specs::Storing::gap_in))]
fn gap_in(table: &[u16], file: &[u8], cur: Currency, new: Contents, x: u32, j: u16) -> Between
    ensures { result ≡ gap_in table.now file.now cur new.entry.kind new.entry.«data».now x j }
{
    if !words::is_detail(table, j, new.kind) {
        return Between {
            before: x,
            after: x,
        };
    }
    new.place_under(table, file, j, placing::occurrence(table, file, cur, j), 0)
}

// Its neighbours in each chain. An index below 16 is cast: `try_from` would have an error that never comes.
fn gaps_of(table: &[u16], file: &[u8], cur: Currency, new: Contents, x: u32) -> [Between; 16]
    ensures { result ≡ places_by (gap_in table.now file.now cur new.entry.kind new.entry.«data».now x) }
{
    array::from_fn(|j| gap_in(table, file, cur, new, x, j as u16))
}

// Links a record in chain `j`, where its type is in it.
#[tactic(auto, unfolding(act_model::specs::Storing::entered_in))]
fn link_in(table: &[u16], file: &mut [u8], kind: u16, x: u32, j: u16, gap: Between)
    ensures { entered_in table.now file.old kind x j gap ≡ file.new }
{
    if j < words::word(table, words::CHAINS) && words::in_chain(table, j, kind) {
        links::link(table, file, j, x, gap.before, gap.after);
    }
}

// Links a record in every chain of its type; the index is cast for the same reason.
fn link_all(table: &[u16], file: &mut [u8], kind: u16, x: u32, gaps: [Between; 16])
    ensures { entered_all table.now file.old kind x (place_at gaps) ≡ file.new }
{
    for (j, &gap) in gaps.iter().enumerate() {
        link_in(table, file, kind, x, j as u16, gap);
    }
}

// Puts a calculated record directly after page `p`'s header.
#[tactic(auto, unfolding(act_model::specs::Storing::calc_entered))]
pub fn calc_in(table: &[u16], file: &mut [u8], p: u32, x: u32)
    ensures { calc_entered table.now file.old p x ≡ file.new }
{
    let first = fields::head_next(file, p);
    links::set_calc_next(table, file, x, first);
    links::set_head_next(file, p, x);
}

// Puts it there by its CALC key, where its type is calculated.
#[tactic(auto, unfolding(act_model::specs::Storing::calc_joined))]
fn calc_join(table: &[u16], file: &mut [u8], new: Contents, x: u32)
    ensures { calc_joined table.now file.old new.entry.kind new.entry.«data».now x ≡ file.new }
{
    if words::is_calculated(table, new.kind) {
        calc_in(table, file, new.home(table), x);
    }
}

// The code of a page's gap.
#[tactic(auto, unfolding(act_model::specs::Storing::stored_code))]
fn code_of(p: u32, gap: Gap) -> u32
    ensures { result ≡ stored_code p gap }
{
    64 * (p % 65536) + u32::from(gap.line)
}

// Puts a record into a gap of page `p` and links it.
#[tactic(auto, unfolding(act_model::specs::Storing::stored_with))]
fn put_linked(
    table: &[u16],
    file: &mut [u8],
    new: Contents,
    p: u32,
    gap: Gap,
    x: u32,
    gaps: [Between; 16],
)
    ensures { stored_with table.now file.old new.entry.kind new.entry.«data».now p gap x (place_at gaps) ≡ file.new }
{
    // Cut to a word and no `try_from`: `stored_with` says so of every table.
    let size = (sizes::record_size(table, new.kind) % 65536) as u16;
    moves::put_in(file, p, gap, new.kind, size, new.data);
    link_all(table, file, new.kind, x, gaps);
    calc_join(table, file, new, x);
}

// Carries a STORE out on page `p`; the new record's code.
pub fn store_act(
    table: &[u16],
    file: &mut [u8],
    cur: Currency,
    kind: u16,
    data: &[u8],
    p: u32,
) -> u32
    ensures { stored_on table.now file.old cur kind «data».now p ≡ (result, file.new) }
{
    let new = Contents { kind, data };
    let gap = room::first_gap(room::page_of(file, p));
    let x = code_of(p, gap);
    let gaps = gaps_of(table, file, cur, new, x);
    put_linked(table, file, new, p, gap, x, gaps);
    x
}
