// Frame 00: the table's words, and a fresh file under them.
ghost use Rattle.std.specs.Prelude.{◌≡◌, ◌*◌};
ghost use Rattle.ledger.specs.Table.{pages};
ghost use Rattle.ledger.specs.Currency.{unset};
ghost use Rattle.line_model.specs.Formats.{word_in, words_in, told, format_in, format_under, format_frame};

use ledger::{Answer, Currency};
use line_model::{Reply, Session};
use page::bytes;
use store::calls;
use table::{rules, words};

// The largest table.
pub const TABLE: usize = 243;

// A session before any table.
pub fn start() -> Session
    ensures { (result.words ≡ 0) × (result.currency ≡ unset) }
{
    Session {
        words: 0,
        currency: Currency::none(),
    }
}

// A frame's reply without data.
pub fn told(session: Session, answer: Answer) -> Reply
    ensures { result ≡ told session answer }
{
    Reply {
        session,
        answer,
        shown: 0,
    }
}

// Word `i` of the table that a frame carries.
#[tactic(auto, using(page::proofs::Laws::Bytes::two_past), unfolding(line_model::specs::Formats::word_in))]
fn word_in(frame: &[u8], i: usize) -> u16
    ensures { result ≡ word_in frame.now i }
{
    if frame.len() / 2 <= i {
        return 0;
    }
    bytes::two_at(frame, 1 + 2 * i)
}

// Takes as many words out of a frame as `fresh` has.
fn take_words(frame: &[u8], fresh: &mut [u16])
    ensures { words_in frame.now fresh.old ≡ fresh.new }
{
    for (i, word) in fresh.iter_mut().enumerate() {
        *word = word_in(frame, i);
    }
}

// How many bytes a file under a table has.
pub fn file_bytes(table: &[u16]) -> usize
    ensures { result ≡ 512 * pages table.now }
{
    512 * (words::word(table, words::PAGES) as usize)
}

// Makes a fresh file under the words `fresh`, in as many bytes as they ask.
#[tactic(auto, unfolding(line_model::specs::Formats::format_in))]
fn format_file(file: &mut [u8], fresh: &[u16]) -> Answer
    ensures { format_in file.old fresh.now ≡ (result, file.new) }
{
    if !rules::accepted(fresh) {
        return Answer::refused(Answer::BAD_TABLE);
    }
    let size = file_bytes(fresh);
    if file.len() < size {
        return Answer::refused(Answer::BAD_SIZE);
    }
    let done = calls::format(fresh, &mut file[..size], Currency::none());
    done.answer
}

// Formats under the words `fresh`, which become the table; refused, all stays as it was.
#[tactic(auto, using(play_laws::proofs::Words::put_front), unfolding(line_model::specs::Formats::format_under))]
fn format_under(table: &mut [u16], file: &mut [u8], session: Session, fresh: &[u16]) -> Reply
    ensures { format_under table.old file.old session fresh.now ≡ (result, table.new, file.new) }
{
    let n = fresh.len();
    if table.len() < n {
        return told(session, Answer::refused(Answer::BAD_TABLE));
    }
    let answer = format_file(file, fresh);
    if answer.code != 0 {
        return told(session, answer);
    }
    table[..n].copy_from_slice(fresh);
    let next = Session {
        words: n,
        currency: Currency::none(),
    };
    told(next, answer)
}

// Plays a frame 00.
#[tactic(auto, unfolding(line_model::specs::Formats::format_frame))]
pub fn play_format(table: &mut [u16], file: &mut [u8], session: Session, frame: &[u8]) -> Reply
    ensures { format_frame table.old file.old session frame.now ≡ (result, table.new, file.new) }
{
    let n = frame.len() / 2;
    if TABLE < n {
        return told(session, Answer::refused(Answer::BAD_TABLE));
    }
    let mut fresh = [0u16; TABLE];
    take_words(frame, &mut fresh);
    format_under(table, file, session, &fresh[..n])
}
