// Hexadecimal text, in and out.
ghost use Rattle.std.specs.Prelude.{◌≡◌, ◌%◌};
ghost use Rattle.ledger.specs.Player.{digit_value, digit_of};
ghost use Rattle.frames_model.specs.Texts.{digit_on, step_on, decode_on, hex_put};

use frames_model::Reading;
use page::writes;

// More than any digit's value: no hexadecimal digit.
pub const NO_DIGIT: u8 = 16;

// The value of a digit in either case.
// A number and no Option: the ledger's `digit_value` says 16 of a character that is no digit.
#[tactic(auto, unfolding(ledger::specs::Player::digit_value, ledger::specs::Rules::between))]
pub fn digit_value(c: u8) -> u8
    ensures { result ≡ digit_value c }
{
    match c {
        b'0'..=b'9' => c - b'0',
        b'A'..=b'F' => c - b'A' + 10,
        b'a'..=b'f' => c - b'a' + 10,
        _ => NO_DIGIT,
    }
}

// The digit of a value, in capitals.
#[tactic(auto, unfolding(ledger::specs::Player::digit_of))]
pub fn digit_of(v: u8) -> u8
    ensures { result ≡ digit_of (v % 16) }
{
    match v % 16 {
        d @ 0..=9 => b'0' + d,
        d => b'A' - 10 + d,
    }
}

// Takes a digit of value `v`: the first of a byte is kept, the second puts the byte into `frame`.
#[tactic(auto, unfolding(frames_model::specs::Texts::digit_on))]
fn take_digit(frame: &mut [u8], s: Reading, v: u8) -> Option<Reading>
    ensures { digit_on frame.old s v ≡ (result, frame.new) }
{
    let count = s.count;
    let Some(high) = s.high else {
        return Some(Reading {
            high: Some(v),
            count,
        });
    };
    if frame.len() <= count {
        return None;
    }
    frame[count] = high % 16 * 16 + v % 16;
    Some(Reading {
        high: None,
        count: count + 1,
    })
}

// Takes a character: a space is skipped.
#[tactic(auto, unfolding(frames_model::specs::Texts::step_on))]
fn take_character(frame: &mut [u8], s: Reading, c: u8) -> Option<Reading>
    ensures { step_on frame.old s c ≡ (result, frame.new) }
{
    if c == b' ' {
        return Some(s);
    }
    let v = digit_value(c);
    if v == NO_DIGIT {
        return None;
    }
    take_digit(frame, s, v)
}

// Decodes a line into `frame`, which has room for half of it; spaces are skipped. How many bytes it has; where it is no frame an error:
// the bytes before a digit that waits for its second, 0 where a character is no digit or there is no room.
pub fn decode(line: &[u8], frame: &mut [u8]) -> Result<usize, usize>
    ensures { decode_on line.now frame.old ≡ (result, frame.new) }
{
    let mut s = Reading {
        high: None,
        count: 0,
    };
    for c in line {
        let Some(read) = take_character(frame, s, *c) else {
            return Err(0);
        };
        s = read;
    }
    match s.high {
        None => Ok(s.count),
        Some(_) => Err(s.count),
    }
}

// Puts the two digits of a byte into `out` at `at`: byte by byte, since a part put takes twice the time.
#[tactic(auto, using(crate::proofs::Laws::Prints::hex_by_digits, crate::proofs::Laws::Prints::hex_past))]
pub fn put_hex(out: &mut [u8], at: usize, b: u8)
    ensures { hex_put out.old at b ≡ out.new }
{
    if at < out.len() {
        writes::put_byte(out, at, digit_of(b / 16));
        writes::put_byte(out, at + 1, digit_of(b));
    }
}
