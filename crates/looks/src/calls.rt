// The calls that read, once refusals 1 to 4 are behind them. Each takes the lent table and file and the currency by value, and no struct of
// them: the forms that the specification names. Type 0 is that of no record, code 0 in a currency that of no current one: numbers, since
// the definitions `kind_in` and `Currency` have them so, and the C interface too.
ghost use Rattle.std.specs.Prelude.{◌≡◌};
ghost use Rattle.ledger.specs.Numbers.{or_none};
ghost use Rattle.ledger.specs.Answers.{outcome_of};
ghost use Rattle.model.specs.Reads.{kind_in};
ghost use Rattle.look_model.specs.Currencies.{arrival};
ghost use Rattle.look_model.specs.Looks.{direct_on, reached_on, key_on, current_on, chain_start, find_on, next_on, prior_on, master_on, there_in, first_in, each_on, read_on};

use crate::currency;
use change::copies;
use ledger::{Answer, Currency, Outcome, Refusal};
use model::Found;
use page::fields;
use table::order::Order;
use table::{keys, words};

// Codes of records: 64 to a page, from page 1 on, and the first past them.
const FIRST_CODE: u32 = 64;

const END_OF_CODES: u32 = FIRST_CODE + rings::FUEL as u32;

// DIRECT
#[tactic(auto, unfolding(look_model::specs::Looks::direct_on))]
pub fn direct(table: &[u16], file: &[u8], cur: Currency, code: u32) -> Result<Outcome, Refusal>
    ensures { outcome_of result cur ≡ direct_on table.now file.now cur code }
{
    let kind = fields::kind_at(file, code);
    if kind == 0 {
        return Err(Refusal::NoRecord);
    }
    Ok(currency::arrive_at(table, cur, kind, code, 0))
}

// Arrives at a record that is known to be there.
#[tactic(auto, unfolding(look_model::specs::Looks::reached_on))]
fn reached(table: &[u16], file: &[u8], cur: Currency, code: u32) -> Outcome
    ensures { result ≡ reached_on table.now file.now cur code }
{
    currency::arrive_at(table, cur, fields::kind_at(file, code), code, 0)
}

// Arrives at a record that KEY or FIND found.
fn found(table: &[u16], file: &[u8], cur: Currency, first: Found) -> Outcome
    ensures { result ≡ arrival table.now cur (kind_in file.now first.code) first.code first.place }
{
    let kind = fields::kind_at(file, first.code);
    currency::arrive_at(table, cur, kind, first.code, first.place)
}

// KEY
#[tactic(auto, using(crate::proofs::Laws::Calls::calc_lost, crate::proofs::Laws::Calls::calc_found), unfolding(look_model::specs::Looks::key_on))]
pub fn key(
    table: &[u16],
    file: &[u8],
    cur: Currency,
    kind: u16,
    key: &[u8],
) -> Result<Outcome, Refusal>
    ensures { outcome_of result cur ≡ key_on table.now file.now cur kind key.now }
{
    if !words::is_defined(table, kind) {
        return Err(Refusal::Unknown);
    }
    if !words::is_calculated(table, kind) {
        return Err(Refusal::WrongKind);
    }
    if key.len() != words::kind_word(table, kind, words::KEY_LENGTH) as usize {
        return Err(Refusal::BadLength);
    }
    let p = keys::home_page(table, kind, key);
    let first = rings::find_calc(table, file, p, kind, key, 0).ok_or(Refusal::NoRecord)?;
    Ok(found(table, file, cur, first))
}

// CURRENT
#[tactic(auto, unfolding(look_model::specs::Looks::current_on))]
pub fn current(table: &[u16], file: &[u8], cur: Currency, kind: u16) -> Result<Outcome, Refusal>
    ensures { outcome_of result cur ≡ current_on table.now file.now cur kind }
{
    if !words::is_defined(table, kind) {
        return Err(Refusal::Unknown);
    }
    let code = currency::type_current(table, cur, kind);
    if code == 0 {
        return Err(Refusal::NoCurrent);
    }
    Ok(reached(table, file, cur, code))
}

// A chain's current record, from which a call on the chain begins; else refusals 5 and 6.
#[tactic(auto, unfolding(look_model::specs::Looks::chain_start))]
fn chain_start(table: &[u16], cur: Currency, j: u16) -> Result<u32, Refusal>
    ensures { result ≡ chain_start table.now cur j }
{
    if words::word(table, words::CHAINS) <= j {
        return Err(Refusal::Unknown);
    }
    match currency::chain_current(cur, j) {
        0 => Err(Refusal::NoCurrent),
        at => Ok(at),
    }
}

// FIND
#[tactic(auto, using(table::proofs::Orders::sorts_order, crate::proofs::Laws::Calls::key_lost, crate::proofs::Laws::Calls::key_found), unfolding(look_model::specs::Looks::find_on, look_model::specs::Looks::chain_start))]
pub fn find(
    table: &[u16],
    file: &[u8],
    cur: Currency,
    j: u16,
    key: &[u8],
) -> Result<Outcome, Refusal>
    ensures { outcome_of result cur ≡ find_on table.now file.now cur j key.now }
{
    let at = chain_start(table, cur, j)?;
    if !Order::of(table, j).is_sorted() {
        return Err(Refusal::WrongKind);
    }
    if key.len() != words::chain_word(table, j, words::SORT_LENGTH) as usize {
        return Err(Refusal::BadLength);
    }
    let m = rings::master_of(table, file, j, at);
    let first = rings::find_key(table, file, j, m, key).ok_or(Refusal::NoRecord)?;
    Ok(found(table, file, cur, first))
}

// NEXT
#[tactic(auto, unfolding(look_model::specs::Looks::next_on, look_model::specs::Looks::along_on, look_model::specs::Looks::chain_start))]
pub fn next(table: &[u16], file: &[u8], cur: Currency, j: u16) -> Result<Outcome, Refusal>
    ensures { outcome_of result cur ≡ next_on table.now file.now cur j }
{
    let at = chain_start(table, cur, j)?;
    Ok(reached(table, file, cur, fields::next_at(table, file, j, at)))
}

// PRIOR
#[tactic(auto, unfolding(look_model::specs::Looks::prior_on, look_model::specs::Looks::along_on, look_model::specs::Looks::chain_start))]
pub fn prior(table: &[u16], file: &[u8], cur: Currency, j: u16) -> Result<Outcome, Refusal>
    ensures { outcome_of result cur ≡ prior_on table.now file.now cur j }
{
    let at = chain_start(table, cur, j)?;
    Ok(reached(table, file, cur, rings::prior_of(table, file, j, at)))
}

// MASTER
#[tactic(auto, unfolding(look_model::specs::Looks::master_on, look_model::specs::Looks::along_on, look_model::specs::Looks::chain_start))]
pub fn master(table: &[u16], file: &[u8], cur: Currency, j: u16) -> Result<Outcome, Refusal>
    ensures { outcome_of result cur ≡ master_on table.now file.now cur j }
{
    let at = chain_start(table, cur, j)?;
    Ok(reached(table, file, cur, rings::master_of(table, file, j, at)))
}

// Whether a code from `first` to `last` has a record.
#[tactic(auto, unfolding(look_model::specs::Looks::there_in))]
fn is_there(file: &[u8], first: u32, last: u32, code: u32) -> bool
    ensures { result ≡ there_in file.now first last code }
{
    first <= code && code <= last && fields::kind_at(file, code) != 0
}

// The lowest such code. Codes below `first` are not gone through.
fn first_from(file: &[u8], first: u32, last: u32) -> Option<u32>
    ensures { result ≡ or_none (first_in file.now first last) }
{
    (first.max(FIRST_CODE)..END_OF_CODES).find(|&code| is_there(file, first, last, code))
}

// EACH
#[tactic(auto, using(crate::proofs::Laws::Calls::kind_none), unfolding(look_model::specs::Looks::each_on, look_model::specs::Looks::direct_on, ledger::specs::Numbers::or_none))]
pub fn each(
    table: &[u16],
    file: &[u8],
    cur: Currency,
    first: u32,
    last: u32,
) -> Result<Outcome, Refusal>
    ensures { outcome_of result cur ≡ each_on table.now file.now cur first last }
{
    let code = first_from(file, first, last).ok_or(Refusal::NoRecord)?;
    direct(table, file, cur, code)
}

// READ
#[tactic(auto, unfolding(look_model::specs::Looks::read_on))]
pub fn read(
    table: &[u16],
    file: &[u8],
    cur: Currency,
    output: &mut [u8],
) -> Result<Outcome, Refusal>
    ensures { read_on table.now file.now cur output.old ≡ (outcome_of result cur, output.new) }
{
    let run = cur.run;
    if run == 0 {
        return Err(Refusal::NoCurrent);
    }
    let kind = fields::kind_at(file, run);
    if output.len() < words::kind_word(table, kind, words::DATA_LENGTH) as usize {
        return Err(Refusal::ShortOutput);
    }
    copies::put_part(output, 0, fields::data_of(table, file, run));
    Ok(Outcome::done(Answer::done(run, kind, 0), cur))
}
