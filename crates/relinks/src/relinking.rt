// RELINK: the run's record leaves its ring of a chain and joins another master's.
// Its code stays a number, 0 where there is none: the currency's entry, the file format's own null.
ghost use Rattle.std.specs.Prelude.{◌≡◌};
ghost use Rattle.ledger.specs.Answers.{number_of};
ghost use Rattle.model.specs.Keys.{sort_key_in};
ghost use Rattle.ring_model.specs.Rings.{between_in};
ghost use Rattle.act_model.specs.Relinking.{relink_refusal, stands_in, moved_in, relinked_on};

use change::links;
use ledger::Refusal;
use model::Between;
use page::{fields, keys};
use table::words;

// Whether RELINK is refused; `x` is the run's record.
#[tactic(auto, unfolding(act_model::specs::Relinking::relink_refusal, act_model::specs::Relinking::masters_in))]
pub fn relink_refusal(table: &[u16], file: &[u8], x: u32, j: u16, m: u32) -> Result<(), Refusal>
    ensures { number_of result ≡ relink_refusal table.now file.now x j m }
{
    if words::word(table, words::CHAINS) <= j {
        return Err(Refusal::Unknown);
    }
    if x == 0 {
        return Err(Refusal::NoCurrent);
    }
    if !words::is_detail(table, j, fields::kind_at(file, x)) {
        return Err(Refusal::WrongKind);
    }
    // Type 0, no record, stays a number: `kind_in` says it so.
    let kind = fields::kind_at(file, m);
    if kind == 0 || !words::is_master(table, j, kind) {
        return Err(Refusal::NoRecord);
    }
    if rings::twin_in(table, file, j, m, keys::sort_key_at(table, file, j, x), x) {
        return Err(Refusal::Duplicate);
    }
    Ok(())
}

// The neighbours of a record in its ring now.
#[tactic(auto, unfolding(act_model::specs::Relinking::stands_in))]
pub fn place_now(table: &[u16], file: &[u8], j: u16, x: u32) -> Between
    ensures { result ≡ stands_in table.now file.now j x }
{
    Between {
        before: rings::prior_of(table, file, j, x),
        after: fields::next_at(table, file, j, x),
    }
}

// Moves record `x` of chain `j` from one place to another.
#[tactic(auto, unfolding(act_model::specs::Relinking::moved_in))]
pub fn move_to(table: &[u16], file: &mut [u8], j: u16, x: u32, old: Between, new: Between)
    ensures { moved_in table.now file.old j x old new ≡ file.new }
{
    links::join(table, file, j, old.before, old.after);
    links::link(table, file, j, x, new.before, new.after);
}

// Its place in the ring of master `m`.
fn place_under(table: &[u16], file: &[u8], j: u16, x: u32, m: u32) -> Between
    ensures { result ≡ between_in table.now file.now j m (sort_key_in table.now file.now j x) x }
{
    rings::gap_for(table, file, j, m, keys::sort_key_at(table, file, j, x), x)
}

// Carries a RELINK out.
#[tactic(auto, unfolding(act_model::specs::Relinking::relinked_on))]
pub fn relink_act(table: &[u16], file: &mut [u8], j: u16, x: u32, m: u32)
    ensures { relinked_on table.now file.old j x m ≡ file.new }
{
    let old = place_now(table, file, j, x);
    let new = place_under(table, file, j, x, m);
    move_to(table, file, j, x, old, new);
}
