// MODIFY: new data for the run's record; it joins afresh each ring whose key bytes change.
// Its code stays a number, 0 where there is none: the currency's entry, the file format's own null.
ghost use Rattle.std.specs.Prelude.{◌≡◌};
ghost use Rattle.ledger.specs.Answers.{number_of};
ghost use Rattle.act_model.specs.Modifying.{modify_twin, modify_refusal, moves_in, afresh_in, rejoined_in, rejoined_all, calc_moves_in, calc_prior_in, calc_left, calc_rejoined, data_put, modified_on};

use change::{copies, links};
use ledger::Refusal;
use model::Between;
use page::{fields, lookup};
use puts::contents::Contents;
use puts::storing;
use relinks::relinking;
use table::{keys, words};

// Whether the record would be a forbidden duplicate in one of its rings.
// Beside STORE's test only the ring differs. A closure for it would need a `requires`, which no function here has; a trait is longer than both.
fn any_twin(table: &[u16], file: &[u8], new: Contents, x: u32) -> bool
    ensures { result ≡ modify_twin table.now file.now new.entry.kind new.entry.«data».now x }
{
    (0..words::word(table, words::CHAINS)).any(|j| {
        words::is_detail(table, j, new.kind)
            && new.twin_under(table, file, j, rings::master_of(table, file, j, x), x)
    })
}

// Whether MODIFY is refused; `x` is the run's record.
#[tactic(auto, unfolding(act_model::specs::Modifying::modify_refusal))]
pub fn modify_refusal(table: &[u16], file: &[u8], x: u32, data: &[u8]) -> Result<(), Refusal>
    ensures { number_of result ≡ modify_refusal table.now file.now x «data».now }
{
    if x == 0 {
        return Err(Refusal::NoCurrent);
    }
    let kind = fields::kind_at(file, x);
    if data.len() != usize::from(words::kind_word(table, kind, words::DATA_LENGTH)) {
        return Err(Refusal::BadLength);
    }
    if rings::calc_twin(table, file, kind, data, x)
        || any_twin(table, file, Contents { kind, data }, x)
    {
        return Err(Refusal::Duplicate);
    }
    Ok(())
}

// Whether chain `j` has the type as detail and its key bytes change.
#[tactic(auto, unfolding(act_model::specs::Modifying::moves_in))]
fn moves_in(table: &[u16], file: &[u8], new: Contents, x: u32, j: u16) -> bool
    ensures { result ≡ moves_in table.now file.now new.entry.kind new.entry.«data».now x j }
{
    j < words::word(table, words::CHAINS)
        && words::is_detail(table, j, new.kind)
        && !keys::same_key(
            page::keys::sort_key_at(table, file, j, x),
            fields::sort_key(table, j, new.kind, new.data),
        )
}

// The record's place by its new key in its ring of chain `j`.
#[tactic(auto, unfolding(act_model::specs::Modifying::afresh_in))]
fn place_afresh(table: &[u16], file: &[u8], new: Contents, x: u32, j: u16) -> Between
    ensures { result ≡ afresh_in table.now file.now new.entry.kind new.entry.«data».now x j }
{
    new.place_under(table, file, j, rings::master_of(table, file, j, x), x)
}

// Moves the record in chain `j` where its key bytes change.
#[tactic(auto, unfolding(act_model::specs::Modifying::rejoined_in))]
fn move_in(table: &[u16], file: &mut [u8], new: Contents, x: u32, j: u16)
    ensures { rejoined_in table.now file.old new.entry.kind new.entry.«data».now x j ≡ file.new }
{
    if moves_in(table, file, new, x, j) {
        let old_place = relinking::place_now(table, file, j, x);
        let new_place = place_afresh(table, file, new, x, j);
        relinking::move_to(table, file, j, x, old_place, new_place);
    }
}

// Moves it in every chain.
fn move_all(table: &[u16], file: &mut [u8], new: Contents, x: u32)
    ensures { rejoined_all table.now file.old new.entry.kind new.entry.«data».now x ≡ file.new }
{
    for j in 0..16 {
        move_in(table, file, new, x, j);
    }
}

// Whether the type is calculated and its key bytes change.
#[tactic(auto, unfolding(act_model::specs::Modifying::calc_moves_in))]
fn calc_moves(table: &[u16], file: &[u8], new: Contents, x: u32) -> bool
    ensures { result ≡ calc_moves_in table.now file.now new.entry.kind new.entry.«data».now x }
{
    words::is_calculated(table, new.kind)
        && !keys::same_key(
            page::keys::calc_key_at(table, file, x),
            fields::calc_key(table, new.kind, new.data),
        )
}

// What comes before a calculated record in its home's ring.
#[tactic(auto, unfolding(act_model::specs::Modifying::calc_prior_in))]
fn calc_prior(table: &[u16], file: &[u8], kind: u16, x: u32) -> u32
    ensures { result ≡ calc_prior_in table.now file.now kind x }
{
    let home = keys::home_page(table, kind, page::keys::calc_key_at(table, file, x));
    rings::calc_before(table, file, home, x)
}

// Takes a calculated record out of its home's ring.
#[tactic(auto, unfolding(act_model::specs::Modifying::calc_left))]
fn calc_out(table: &[u16], file: &mut [u8], kind: u16, x: u32)
    ensures { calc_left table.now file.old kind x ≡ file.new }
{
    let before = calc_prior(table, file, kind, x);
    let after = fields::calc_next_at(table, file, x);
    links::set_calc(table, file, before, after);
}

// Moves a calculated record directly after its new home's header where its key bytes change.
#[tactic(auto, unfolding(act_model::specs::Modifying::calc_rejoined))]
fn move_calc(table: &[u16], file: &mut [u8], new: Contents, x: u32)
    ensures { calc_rejoined table.now file.old new.entry.kind new.entry.«data».now x ≡ file.new }
{
    if calc_moves(table, file, new, x) {
        calc_out(table, file, new.kind, x);
        storing::calc_in(table, file, new.home(table), x);
    }
}

// Writes a record's data.
#[tactic(auto, unfolding(act_model::specs::Modifying::data_put))]
fn put_data(file: &mut [u8], x: u32, data: &[u8])
    ensures { data_put file.old x «data».now ≡ file.new }
{
    if let Some(at) = lookup::find(file, x) {
        if at < file.len() {
            copies::put_part(file, at + 5, data);
        }
    }
}

// Carries a MODIFY out.
#[tactic(auto, unfolding(act_model::specs::Modifying::modified_on))]
pub fn modify_act(table: &[u16], file: &mut [u8], x: u32, data: &[u8])
    ensures { modified_on table.now file.old x «data».now ≡ file.new }
{
    let new = Contents {
        kind: fields::kind_at(file, x),
        data,
    };
    move_all(table, file, new, x);
    move_calc(table, file, new, x);
    put_data(file, x, data);
}
