// An answer as a line of text.
ghost use Rattle.std.specs.Prelude.{◌≡◌, [], ◌∷◌, ◌++◌, take};
ghost use Rattle.ledger.specs.Player.{printed};
ghost use Rattle.frames_model.specs.Texts.{head_of, bytes_put, text_put};

use crate::hex;
use ledger::Answer;
use page::{bytes, writes};

// Where an answer's data start, and how many bytes of them are printed at the most.
const DATA: u16 = 16;

const PRINTED: usize = 200;

pub const LINE_END: u8 = b'\n';

// Prints FF for a bad line.
#[tactic(auto, unfolding(frames_model::specs::Texts::text_put, model::specs::Moves::part_put))]
pub fn bad_line(out: &mut [u8]) -> usize
    ensures { text_put out.old (70 ∷ 70 ∷ 10 ∷ []) ≡ (result, out.new) }
{
    let line = [b'F', b'F', LINE_END];
    writes::put_part(out, 0, &line);
    line.len()
}

// Prints up to 200 bytes from `at` on; where they end.
fn put_bytes(out: &mut [u8], at: u16, all: &[u8]) -> usize
    ensures { bytes_put out.old at all.now ≡ (result, out.new) }
{
    let start = at as usize;
    let shown = bytes::part_of(all, 0, PRINTED);
    for (i, b) in shown.iter().enumerate() {
        hex::put_hex(out, start + 2 * i, *b);
    }
    start + 2 * shown.len()
}

// An answer's four numbers as bytes: code 1, reference code 3, type 2, count 2.
fn head_of(a: Answer) -> [u8; 8]
    ensures { result ≡ head_of a }
{
    let [_, high, middle, low] = a.reference.to_be_bytes();
    let [kind_high, kind_low] = a.kind.to_be_bytes();
    let [count_high, count_low] = a.count.to_be_bytes();
    [
        a.code, high, middle, low, kind_high, kind_low, count_high, count_low,
    ]
}

// Prints an answer with its data and a line end; how many characters that are.
pub fn put_line(out: &mut [u8], a: Answer, data: &[u8]) -> usize
    ensures { text_put out.old (printed a (take 200 «data».now) ++ (10 ∷ [])) ≡ (result, out.new) }
{
    let head = head_of(a);
    put_bytes(out, 0, &head);
    let end = put_bytes(out, DATA, data);
    writes::put_byte(out, end, LINE_END);
    end + 1
}
