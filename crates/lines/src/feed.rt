// Input as it comes, byte by byte: lines are gathered, played at their line end, and their answers gathered in turn.
ghost use Rattle.std.specs.Prelude.{◌≡◌, length};
ghost use Rattle.ledger.specs.Currency.{unset};
ghost use Rattle.line_model.specs.Feeds.{printed_to, fed_by, end_on, hold_on, take_on};

use crate::{format, line};
use line_model::Feed;
use page::bytes;

// One byte more than the longest line, so that a line over it is known.
pub const HELD: usize = 1101;

// What a line prints at the most, with its line end: 16 digits, READ's data and a line feed.
pub const PRINTED: usize = 417;

pub const LINE_END: u8 = 10;

// Before any input.
pub fn start() -> Feed
    ensures { (result.session.words ≡ 0) × (result.session.currency ≡ unset) × (result.held ≡ 0) × (result.printed ≡ 0) }
{
    Feed {
        session: format::start(),
        held: 0,
        printed: 0,
    }
}

// Where the output gathered ends after `count` bytes more.
#[tactic(auto, unfolding(line_model::specs::Feeds::printed_to))]
fn printed_to(out: &[u8], printed: usize, count: usize) -> usize
    ensures { result ≡ printed_to (length out.now) printed count }
{
    if out.len() <= printed || out.len() - printed <= count {
        return out.len();
    }
    printed + count
}

// Plays the line that is held; its answer goes to `out` where the output gathered ends.
#[tactic(auto, unfolding(line_model::specs::Feeds::end_on))]
pub fn end_line(table: &mut [u16], file: &mut [u8], held: &[u8], feed: Feed, out: &mut [u8]) -> Feed
    ensures { end_on table.old file.old held.now feed out.old ≡ (result, table.new, file.new, out.new) }
{
    if out.len() < feed.printed {
        return feed;
    }
    let line = bytes::part_of(held, 0, feed.held);
    let played = line::play(table, file, feed.session, line, &mut out[feed.printed..]);
    Feed {
        session: played.session,
        held: 0,
        printed: printed_to(out, feed.printed, played.count),
    }
}

// Holds one more byte of a line, as far as there is room.
#[tactic(auto, unfolding(line_model::specs::Feeds::hold_on))]
pub fn hold(held: &mut [u8], feed: Feed, b: u8) -> Feed
    ensures { hold_on held.old feed b ≡ (result, held.new) }
{
    if held.len() <= feed.held {
        return feed;
    }
    held[feed.held] = b;
    Feed {
        held: feed.held + 1,
        ..feed
    }
}

// Takes one byte of input.
#[tactic(auto, unfolding(line_model::specs::Feeds::take_on))]
pub fn take(
    table: &mut [u16],
    file: &mut [u8],
    held: &mut [u8],
    feed: Feed,
    b: u8,
    out: &mut [u8],
) -> Feed
    ensures { take_on table.old file.old held.old feed b out.old ≡ (result, table.new, file.new, held.new, out.new) }
{
    if b == LINE_END {
        return end_line(table, file, held, feed, out);
    }
    hold(held, feed, b)
}
