// A frame as a call: its number, then types as 2 bytes, chains 1, codes 3, data and keys to the end.
ghost use Rattle.std.specs.Prelude.{◌≡◌, ℕ};
ghost use Rattle.ledger.specs.Player.{call_in};
ghost use Rattle.frames.specs.Calls.{call_with};

use page::bytes;

// A call with its arguments.
#[derive(Clone, Copy)]
pub enum Call<'a> {
    Format,
    Store { kind: u16, bytes: &'a [u8] },
    Direct { code: u32 },
    Key { kind: u16, key: &'a [u8] },
    Next { chain: u16 },
    Prior { chain: u16 },
    Master { chain: u16 },
    Each { first: u32, last: u32 },
    Modify { bytes: &'a [u8] },
    Delete,
    Read,
    Current { kind: u16 },
    Find { chain: u16, key: &'a [u8] },
    Relink { chain: u16, master: u32 },
    Unknown,
}

// The call in a frame, by the number in its first byte. FORMAT has no argument here, and READ's output is lent beside the frame.
#[tactic(auto, unfolding(ledger::specs::Player::call_in))]
pub fn call_of(frame: &[u8]) -> Call
    ensures { (room : ℕ) → call_with result room ≡ call_in frame.now room }
{
    let kind = bytes::two_at(frame, 1);
    let code = bytes::three_at(frame, 1);
    let chain = bytes::byte_at(frame, 1) as u16;
    match bytes::byte_at(frame, 0) {
        0 => Call::Format,
        1 => Call::Store {
            kind,
            bytes: bytes::rest_of(frame, 3),
        },
        2 => Call::Direct { code },
        3 => Call::Key {
            kind,
            key: bytes::rest_of(frame, 3),
        },
        4 => Call::Next { chain },
        5 => Call::Prior { chain },
        6 => Call::Master { chain },
        7 => Call::Each {
            first: code,
            last: bytes::three_at(frame, 4),
        },
        8 => Call::Modify {
            bytes: bytes::rest_of(frame, 1),
        },
        9 => Call::Delete,
        10 => Call::Read,
        11 => Call::Current { kind },
        12 => Call::Find {
            chain,
            key: bytes::rest_of(frame, 2),
        },
        13 => Call::Relink {
            chain,
            master: bytes::three_at(frame, 2),
        },
        _ => Call::Unknown,
    }
}
