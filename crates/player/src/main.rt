// The frame player: lines of hexadecimal on standard input, one frame a line, one line of answer each.
#![tactic(auto)]

use line_model::Feed;
use lines::{feed, format, input};
use std::io;
use std::io::{Print, Read};

// The largest file, and how many bytes come in or are gathered before they are written.
const FILE: usize = 65536;

const BLOCK: usize = 65536;

const GATHERED: usize = 65000;

// The table and the file in memory, the line so far, and the output gathered.
#[derive(Drop)]
struct Player<'a, R> {
    rt: &'a R,
    table: [u16; format::TABLE],
    file: [u8; FILE],
    held: [u8; feed::HELD],
    out: [u8; BLOCK],
    feed: Feed,
}

impl<'a, R: Print> Player<'a, R> {
    fn new(rt: &'a R) -> Player<'a, R> {
        Player {
            rt,
            table: [0; format::TABLE],
            file: [0; FILE],
            held: [0; feed::HELD],
            out: [0; BLOCK],
            feed: feed::start(),
        }
    }

    // Writes the output gathered.
    fn write_out(&mut self) -> io::Result<()> {
        if let Some(text) = self.out.get(..self.feed.printed) {
            self.rt.write_all(text)?;
            self.feed.printed = 0;
        }
        Ok(())
    }

    // Takes a block of input, byte by byte. What is gathered is written where another line might have no room.
    fn take(&mut self, block: &[u8]) -> io::Result<()> {
        for b in block {
            self.feed = feed::take(
                &mut self.table,
                &mut self.file,
                &mut self.held,
                self.feed,
                *b,
                &mut self.out,
            );
            if GATHERED < self.feed.printed {
                self.write_out()?;
            }
        }
        Ok(())
    }

    // Takes the whole input. A proved loop has to end: it counts its turns up to a number that no run uses up.
    fn take_all(&mut self, input: &mut impl Read) -> io::Result<()> {
        let mut block = [0u8; BLOCK];
        for _ in 0..u64::MAX {
            let n = input::read_full(input, &mut block);
            if n == 0 {
                return Ok(());
            }
            self.take(&block[..n])?;
        }
        Ok(())
    }

    // Text after the last line end is a line where it has any character; then all that is gathered is written.
    fn finish(&mut self) -> io::Result<()> {
        if self.feed.held != 0 {
            self.feed = feed::end_line(
                &mut self.table,
                &mut self.file,
                &self.held,
                self.feed,
                &mut self.out,
            );
        }
        self.write_out()
    }
}

fn main(rt: HostRuntime) -> io::Result<()> {
    let mut player = Player::new(&rt);
    player.take_all(&mut rt.stdin())?;
    player.finish()
}
