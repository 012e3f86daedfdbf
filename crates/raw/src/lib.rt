// For measuring only: calls on lent memory without refusals 1 to 4, and these refusals alone. No host should link it for its work.
#![tactic(auto)]

ghost use Rattle.std.specs.Prelude.{◌≡◌, length};
ghost use Rattle.ledger.specs.Answers.{outcome_of};
ghost use Rattle.frames.specs.Calls.{call_with};
ghost use Rattle.raw_model.specs.Raws.{check_on, raw_played_on, raw_play_on, raw_on};

use frames::call::Call;
use frames::{call, shape};
use ledger::{Currency, Outcome, Refusal};
use looks::calls;
use store::{changes, checks};

// The currency has not 33 words. A number and no enum, as all that gerunjap_check answers: C takes it as it is.
pub const BAD_CURRENCY: u8 = 255;

// Makes a call, or says why it is refused.
// A match of its own, as play's, and no trait over both: every arm calls another function, so a trait would only name the fifteen once more.
#[tactic(auto, unfolding(raw_model::specs::Raws::raw_played_on))]
fn play_call(
    table: &[u16],
    file: &mut [u8],
    cur: Currency,
    call: Call,
    output: &mut [u8],
) -> Result<Outcome, Refusal>
    ensures { raw_played_on table.now file.old cur output.old (call_with call.entry (length output.old)) ≡ (outcome_of result cur, file.new, output.new) }
{
    match call {
        Call::Format => Ok(store::calls::format(table, file, cur)),
        Call::Store { kind, bytes } => changes::store(table, file, cur, kind, bytes),
        Call::Direct { code } => calls::direct(table, file, cur, code),
        Call::Key { kind, key } => calls::key(table, file, cur, kind, key),
        Call::Next { chain } => calls::next(table, file, cur, chain),
        Call::Prior { chain } => calls::prior(table, file, cur, chain),
        Call::Master { chain } => calls::master(table, file, cur, chain),
        Call::Each { first, last } => calls::each(table, file, cur, first, last),
        Call::Modify { bytes } => changes::modify(table, file, cur, bytes),
        Call::Delete => deletes::delete(table, file, cur),
        Call::Read => calls::read(table, file, cur, output),
        Call::Current { kind } => calls::current(table, file, cur, kind),
        Call::Find { chain, key } => calls::find(table, file, cur, chain, key),
        Call::Relink { chain, master } => changes::relink(table, file, cur, chain, master),
        Call::Unknown => Err(Refusal::Unknown),
    }
}

// Plays a well-made frame.
#[tactic(auto, unfolding(raw_model::specs::Raws::raw_play_on))]
fn play_raw(
    table: &[u16],
    file: &mut [u8],
    cur: Currency,
    frame: &[u8],
    output: &mut [u8],
) -> Outcome
    ensures { raw_play_on table.now file.old cur frame.now output.old ≡ (result, file.new, output.new) }
{
    let came = play_call(table, file, cur, call::call_of(frame), output);
    Outcome::of(came, cur)
}

// The first of refusals 1 to 4 that is due, or 0.
#[tactic(auto, unfolding(raw_model::specs::Raws::check_on))]
pub fn gerunjap_check(table: &[u16], file: &[u8], currency: &[u32]) -> u8
    ensures { result ≡ check_on table.now file.now currency.now }
{
    if currency.len() != 33 {
        return BAD_CURRENCY;
    }
    match checks::check(table, file, gerunjap::currency_of(currency)) {
        Ok(()) => 0,
        Err(why) => why.code(),
    }
}

// As gerunjap_call, without refusals 1 to 4 but for FORMAT's. On a file that is not sound it still comes back, but its answer means nothing.
#[tactic(auto, unfolding(raw_model::specs::Raws::raw_on))]
pub fn gerunjap_raw(
    table: &[u16],
    file: &mut [u8],
    currency: &mut [u32],
    frame: &[u8],
    output: &mut [u8],
    answer: &mut [u8],
) -> u8
    ensures { raw_on table.now file.old currency.old frame.now output.old answer.old ≡ (result, file.new, currency.new, output.new, answer.new) }
{
    if currency.len() != 33 || answer.len() < 8 {
        return gerunjap::BAD_LENT;
    }
    if !shape::well_made(frame) {
        return gerunjap::ILL_MADE;
    }
    let done = play_raw(table, file, gerunjap::currency_of(currency), frame, output);
    gerunjap::put_currency(currency, done.currency);
    gerunjap::put_answer(answer, done.answer);
    gerunjap::ANSWERED
}
