// The dispatcher: a well-made frame's call made on a file.
#![tactic(auto)]

ghost use Rattle.std.specs.Prelude.{◌≡◌, length};
ghost use Rattle.ledger.specs.Promise.{Promised};
ghost use Rattle.ledger.specs.Player.{call_in};
ghost use Rattle.frames.specs.Calls.{call_with};
ghost use Rattle.play_model.specs.Plays.{played_on, play_on};

use frames::call;
use frames::call::Call;
use ledger::{Currency, Outcome};
use store::calls;

// Makes a call. FORMAT takes no argument here: it formats the lent file under the lent table.
#[tactic(auto, unfolding(play_model::specs::Plays::played_on))]
fn play_call(
    table: &[u16],
    file: &mut [u8],
    cur: Currency,
    call: Call,
    output: &mut [u8],
) -> Outcome
    ensures { played_on table.now file.old cur output.old (call_with call.entry (length output.old)) ≡ (result, file.new, output.new) }
{
    match call {
        Call::Format => calls::format(table, file, cur),
        Call::Store { kind, bytes } => calls::store(table, file, cur, kind, bytes),
        Call::Direct { code } => calls::direct(table, file, cur, code),
        Call::Key { kind, key } => calls::key(table, file, cur, kind, key),
        Call::Next { chain } => calls::next(table, file, cur, chain),
        Call::Prior { chain } => calls::prior(table, file, cur, chain),
        Call::Master { chain } => calls::master(table, file, cur, chain),
        Call::Each { first, last } => calls::each(table, file, cur, first, last),
        Call::Modify { bytes } => calls::modify(table, file, cur, bytes),
        Call::Delete => calls::delete(table, file, cur),
        Call::Read => calls::read(table, file, cur, output),
        Call::Current { kind } => calls::current(table, file, cur, kind),
        Call::Find { chain, key } => calls::find(table, file, cur, chain, key),
        Call::Relink { chain, master } => calls::relink(table, file, cur, chain, master),
        Call::Unknown => calls::unknown(table, file, cur),
    }
}

// Plays a well-made frame.
#[tactic(auto, using(play_laws::proofs::Promises::played_both), unfolding(play_model::specs::Plays::play_on))]
pub fn play(
    table: &[u16],
    file: &mut [u8],
    cur: Currency,
    frame: &[u8],
    output: &mut [u8],
) -> Outcome
    ensures computed { play_on table.now file.old cur frame.now output.old ≡ (result, file.new, output.new) }
    ensures promised { Promised (call_in frame.now (length output.old)) table.now file.old file.new output.old output.new cur result }
{
    play_call(table, file, cur, call::call_of(frame), output)
}
