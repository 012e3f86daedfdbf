// A call as bytes: its number, then types as 2 bytes, chains 1, codes 3, data and keys to the end.
ghost use Rattle.std.specs.Prelude.{◌≡◌};
ghost use Rattle.ledger.specs.Player.{fewest, is_open, right_count, call_made};

// By number and no method of a kind of call: `right_count` takes any number, also one that no call has.
// How many argument bytes each call from 00 to 0D takes at the least.
const FEWEST: [u8; 14] = [0, 2, 3, 2, 1, 1, 1, 6, 0, 0, 0, 2, 1, 4];

// The same of any call: an unknown one needs none.
#[tactic(auto, unfolding(ledger::specs::Player::fewest))]
fn fewest(call: u8) -> u8
    ensures { result ≡ fewest call }
{
    FEWEST.get(call as usize).copied().unwrap_or(0)
}

// Whether a call's last argument goes to the end of the frame. An unknown call takes any bytes.
#[tactic(auto, unfolding(ledger::specs::Player::is_open, ledger::specs::Numbers::elem))]
fn is_open(call: u8) -> bool
    ensures { result ≡ is_open call }
{
    matches!(call, 1 | 3 | 8 | 12) || 13 < call
}

// Whether a call has the right number of argument bytes.
#[tactic(auto, unfolding(ledger::specs::Player::right_count))]
fn right_count(call: u8, n: usize) -> bool
    ensures { result ≡ right_count call n }
{
    let least = fewest(call) as usize;
    if is_open(call) {
        least <= n
    } else {
        n == least
    }
}

// Whether a frame of a call is well made. FORMAT has no argument here; that of the player carries the table.
#[tactic(auto, unfolding(ledger::specs::Player::call_made))]
pub fn well_made(frame: &[u8]) -> bool
    ensures { result ≡ call_made frame.now }
{
    match frame {
        [] => false,
        [call, arguments @ ..] => right_count(*call, arguments.len()),
    }
}
