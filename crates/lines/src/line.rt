// A frame played, and a line: one line of text in, one line out.
// Table, file, frame and output are parameters and no struct: each step lends its own part of each, and struct fields would say the same in longer clauses.
ghost use Rattle.std.specs.Prelude.{◌≡◌, ◌≤◌, length};
ghost use Rattle.ledger.specs.Player.{well_made};
ghost use Rattle.play_laws.specs.Buffers.{Stands, LinePlays};
ghost use Rattle.line_model.specs.Lines.{shown_of, reply_of, call_under, call_frame, frame_on, frame_in, printed_on, bad_on, answered, line_on};

use crate::format;
use frames::{hex, shape, text};
use ledger::{Answer, Outcome};
use line_model::{Played, Reply, Session};
use page::bytes;
use table::words;

// The longest line that is no fault.
pub const LINE: usize = 1100;

// The most bytes of a frame, and of READ's data.
pub const FRAME: usize = 550;

pub const OUTPUT: usize = 200;

// The call READ.
pub const READ: u8 = 10;

// How many bytes of data a frame's answer shows: those of a READ that is done.
#[tactic(auto, unfolding(line_model::specs::Lines::shown_of))]
fn shown_of(table: &[u16], frame: &[u8], a: Answer) -> usize
    ensures { result ≡ shown_of table.now frame.now a }
{
    if bytes::byte_at(frame, 0) == READ && a.code == 0 {
        words::kind_word(table, a.kind, words::DATA_LENGTH) as usize
    } else {
        0
    }
}

// The reply to a call under a table.
#[tactic(auto, unfolding(line_model::specs::Lines::reply_of))]
fn reply_of(table: &[u16], frame: &[u8], done: Outcome) -> Reply
    ensures { result ≡ reply_of table.now frame.now done }
{
    let session = Session {
        words: table.len(),
        currency: done.currency,
    };
    Reply {
        session,
        answer: done.answer,
        shown: shown_of(table, frame, done.answer),
    }
}

// Plays a call under the session's table, over as many bytes of the file as it asks.
#[tactic(auto, unfolding(line_model::specs::Lines::call_under))]
fn call_under(
    table: &[u16],
    file: &mut [u8],
    session: Session,
    frame: &[u8],
    output: &mut [u8],
) -> Reply
    ensures { call_under table.now file.old session frame.now output.old ≡ (result, file.new, output.new) }
{
    let size = format::file_bytes(table);
    if file.len() < size {
        return format::told(session, Answer::refused(Answer::BAD_SIZE));
    }
    let done = play::play(table, &mut file[..size], session.currency, frame, output);
    reply_of(table, frame, done)
}

// Plays any other well-made frame than 00; before a table is accepted each is refused.
#[tactic(auto, unfolding(line_model::specs::Lines::call_frame))]
fn play_call(
    table: &[u16],
    file: &mut [u8],
    session: Session,
    frame: &[u8],
    output: &mut [u8],
) -> Reply
    ensures { call_frame table.now file.old session frame.now output.old ≡ (result, file.new, output.new) }
{
    if session.words == 0 || table.len() < session.words {
        return format::told(session, Answer::refused(Answer::BAD_TABLE));
    }
    call_under(&table[..session.words], file, session, frame, output)
}

// Plays a well-made frame.
#[tactic(auto, unfolding(line_model::specs::Lines::frame_on))]
fn play_frame(
    table: &mut [u16],
    file: &mut [u8],
    session: Session,
    frame: &[u8],
    output: &mut [u8],
) -> Reply
    ensures { frame_on table.old file.old session frame.now output.old ≡ (result, table.new, file.new, output.new) }
{
    if bytes::byte_at(frame, 0) == 0 {
        return format::play_format(table, file, session, frame);
    }
    play_call(table, file, session, frame, output)
}

// Whether a frame is well made; frame 00 carries words of two bytes.
#[tactic(auto, unfolding(ledger::specs::Player::well_made, ledger::specs::Player::call_made))]
fn is_right(frame: &[u8]) -> bool
    ensures { result ≡ well_made frame.now }
{
    match frame {
        [] => false,
        [0, table @ ..] => table.len() % 2 == 0,
        _ => shape::well_made(frame),
    }
}

// Takes a line's frame; how many bytes it has, or None where the line is bad.
#[tactic(auto, unfolding(line_model::specs::Lines::frame_in))]
fn take_frame(line: &[u8], frame: &mut [u8]) -> Option<usize>
    ensures { frame_in line.now frame.old ≡ (result, frame.new) }
{
    if LINE < line.len() {
        return None;
    }
    let count = hex::decode(line, frame).ok()?;
    if !is_right(bytes::part_of(frame, 0, count)) {
        return None;
    }
    Some(count)
}

// Prints a reply; of READ's output the bytes that it shows.
#[tactic(auto, unfolding(line_model::specs::Lines::printed_on))]
fn print(out: &mut [u8], reply: Reply, output: &[u8]) -> Played
    ensures { printed_on out.old reply output.now ≡ (result, out.new) }
{
    let shown = bytes::part_of(output, 0, reply.shown);
    let count = text::put_line(out, reply.answer, shown);
    Played {
        session: reply.session,
        count,
    }
}

// Prints FF; the session stays.
#[tactic(auto, unfolding(line_model::specs::Lines::bad_on))]
fn print_bad(out: &mut [u8], session: Session) -> Played
    ensures { bad_on out.old session ≡ (result, out.new) }
{
    let count = text::bad_line(out);
    Played { session, count }
}

// Plays a well-made frame and prints its answer.
#[tactic(auto, unfolding(line_model::specs::Lines::answered))]
fn play_right(
    table: &mut [u16],
    file: &mut [u8],
    session: Session,
    frame: &[u8],
    out: &mut [u8],
) -> Played
    ensures { answered table.old file.old session frame.now out.old ≡ (result, table.new, file.new, out.new) }
{
    let mut output = [0u8; OUTPUT];
    let reply = play_frame(table, file, session, frame, &mut output);
    print(out, reply, &output)
}

// Plays one line, without its line end.
#[tactic(auto, using(play_laws::proofs::Promises::lined_both), unfolding(line_model::specs::Lines::line_on))]
pub fn play(
    table: &mut [u16],
    file: &mut [u8],
    session: Session,
    line: &[u8],
    out: &mut [u8],
) -> Played
    ensures computed { line_on table.old file.old session line.now out.old ≡ (result, table.new, file.new, out.new) }
    ensures plays { Stands table.old file.old session → 417 ≤ length out.old → LinePlays table.old file.old session line.now out.old result table.new file.new out.new }
{
    let mut space = [0u8; FRAME];
    match take_frame(line, &mut space) {
        Some(count) => {
            let frame = bytes::part_of(&space, 0, count);
            play_right(table, file, session, frame, out)
        }
        None => print_bad(out, session),
    }
}
