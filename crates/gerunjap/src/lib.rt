// One call on lent memory; crates/gerunjap_c hands it to C.
#![tactic(auto)]

ghost use Rattle.std.specs.Prelude.{◌≡◌, get_or};
ghost use Rattle.ledger.specs.Interface.{Lends};
ghost use Rattle.model.specs.Moves.{part_put};
ghost use Rattle.play_model.specs.Plays.{play_on};
ghost use Rattle.gerunjap_model.specs.Lent.{sixteen_of, currency_of, currency_put, answer_put8, answered, call_on};

use change::copies;
use frames::shape;
use ledger::{Answer, Currency};
use page::writes;

// The status of a call. A number and no enum: C takes it from gerunjap_call as it is.
// The frame was answered.
pub const ANSWERED: u8 = 0;

// The frame was ill made.
pub const ILL_MADE: u8 = 1;

// The currency has not 33 words, or the answer not 8 bytes.
pub const BAD_LENT: u8 = 2;

// The word at `i`, 0 past the end.
fn code_at(words: &[u32], i: usize) -> u32
    ensures { result ≡ get_or words.now i 0 }
{
    words.get(i).copied().unwrap_or(0)
}

// The sixteen words from `at` on.
#[tactic(auto, unfolding(gerunjap_model::specs::Lent::sixteen_of))]
fn sixteen_at(words: &[u32], at: usize) -> [u32; 16]
    ensures { result ≡ sixteen_of words.now at }
{
    let mut sixteen = [0; 16];
    writes::put_part(&mut sixteen, 0, words.get(at..).unwrap_or(&[]));
    sixteen
}

// The currency in 33 words.
#[tactic(auto, unfolding(gerunjap_model::specs::Lent::currency_of))]
pub fn currency_of(words: &[u32]) -> Currency
    ensures { result ≡ currency_of words.now }
{
    Currency {
        run: code_at(words, 0),
        types: sixteen_at(words, 1),
        chains: sixteen_at(words, 17),
    }
}

#[tactic(auto, unfolding(gerunjap_model::specs::Lent::currency_put, model::specs::Moves::part_put))]
pub fn put_currency(words: &mut [u32], cur: Currency)
    ensures { currency_put words.old cur ≡ words.new }
{
    writes::put_part(words, 0, &[cur.run]);
    writes::put_part(words, 1, &cur.types);
    writes::put_part(words, 17, &cur.chains);
}

// Puts an answer into 8 bytes: code 1, reference code 3, type 2, count 2.
#[tactic(auto, unfolding(gerunjap_model::specs::Lent::answer_put8))]
pub fn put_answer(out: &mut [u8], a: Answer)
    ensures { answer_put8 out.old a ≡ out.new }
{
    writes::put_byte(out, 0, a.code);
    writes::put_three(out, 1, a.reference);
    copies::put_two(out, 4, a.kind);
    copies::put_two(out, 6, a.count);
}

// Plays a well-made frame over 33 words and at least 8 bytes, and puts its answer.
fn answer_frame(
    table: &[u16],
    file: &mut [u8],
    currency: &mut [u32],
    frame: &[u8],
    output: &mut [u8],
    answer: &mut [u8],
) -> u8
    ensures { answered currency.old answer.old (play_on table.now file.old (currency_of currency.old) frame.now output.old) ≡ (result, file.new, currency.new, output.new, answer.new) }
{
    let done = play::play(table, file, currency_of(currency), frame, output);
    put_currency(currency, done.currency);
    put_answer(answer, done.answer);
    ANSWERED
}

// Plays one frame on a lent table, file, currency and output, and puts its answer. At any status but ANSWERED nothing is written.
#[tactic(auto, using(play_laws::proofs::Promises::lent_both), unfolding(gerunjap_model::specs::Lent::call_on))]
pub fn gerunjap_call(
    table: &[u16],
    file: &mut [u8],
    currency: &mut [u32],
    frame: &[u8],
    output: &mut [u8],
    answer: &mut [u8],
) -> u8
    ensures computed { call_on table.now file.old currency.old frame.now output.old answer.old ≡ (result, file.new, currency.new, output.new, answer.new) }
    ensures lends { Lends table.now file.old file.new currency.old currency.new frame.now output.old output.new answer.old answer.new result }
{
    if currency.len() != 33 || answer.len() < 8 {
        return BAD_LENT;
    }
    if !shape::well_made(frame) {
        return ILL_MADE;
    }
    answer_frame(table, file, currency, frame, output, answer)
}
