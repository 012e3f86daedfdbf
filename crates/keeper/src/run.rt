// A run on an open data file: each line played, and its answer written once its call is on the disk.
use crate::disk::Disk;
use crate::fresh;
use crate::names::Names;
use change::copies;
use frames::hex;
use line_model::{Feed, Session};
use lines::{feed, format, line};
use page::bytes;
use std::fs::{File, Files};
use std::io;
use std::io::{Error, ErrorKind, Print, Read};

// The largest file, and how many bytes come in at once.
pub const FILE: usize = 65536;

const BLOCK: usize = 4096;

// The table and the file in memory, what the data file holds, the line and the answer so far, and the disk.
#[derive(Drop)]
pub struct Run<'a, R> {
    rt: &'a R,
    names: &'a Names<'a>,
    table: [u16; format::TABLE],
    file: [u8; FILE],
    before: [u8; FILE],
    held: [u8; feed::HELD],
    out: [u8; feed::PRINTED],
    feed: Feed,
    disk: Disk,
}

// Whether a line is a frame 00 that was done, by its answer.
fn made_a_file(text: &[u8], answer: &[u8]) -> bool {
    let mut frame = [0u8; line::FRAME];
    hex::decode(text, &mut frame).is_ok() && frame[0] == 0 && answer.starts_with(b"00")
}

impl<'a, R: Files<File = File> + Print> Run<'a, R> {
    // A run from a session on, with the file in memory as it is on the disk.
    pub(crate) fn new(
        rt: &'a R,
        names: &'a Names<'a>,
        table: [u16; format::TABLE],
        file: [u8; FILE],
        session: Session,
        disk: Disk,
    ) -> Run<'a, R> {
        Run {
            rt,
            names,
            table,
            file,
            before: file,
            held: [0; feed::HELD],
            out: [0; feed::PRINTED],
            feed: Feed {
                session,
                held: 0,
                printed: 0,
            },
            disk,
        }
    }

    // Brings to the disk what the line that is held changed, by its answer.
    fn settle(&mut self, text: usize, told: usize) -> io::Result<()> {
        let text = bytes::part_of(&self.held, 0, text);
        if made_a_file(text, bytes::part_of(&self.out, 0, told)) {
            let made = bytes::part_of(&self.file, 0, format::file_bytes(&self.table));
            copies::put_part(&mut self.before, 0, made);
            return fresh::put_in_place(self.rt, self.names, &mut self.disk, text, made);
        }
        let size = self.disk.size;
        let Some(before) = self.before.get_mut(..size) else {
            return Err(Error::new(ErrorKind::InvalidData, "the data file is too large"));
        };
        self.disk.keep(before, bytes::part_of(&self.file, 0, size))
    }

    // Plays the line that is held, and writes its answer once its call is on the disk.
    fn end_line(&mut self) -> io::Result<()> {
        let text = self.feed.held;
        let played = feed::end_line(
            &mut self.table,
            &mut self.file,
            &self.held,
            self.feed,
            &mut self.out,
        );
        self.settle(text, played.printed)?;
        self.rt
            .write_all(bytes::part_of(&self.out, 0, played.printed))?;
        self.feed = Feed {
            session: played.session,
            held: 0,
            printed: 0,
        };
        Ok(())
    }

    // Takes a block of input, byte by byte, until a write fails.
    fn take(&mut self, block: &[u8]) -> io::Result<()> {
        for b in block {
            if *b == feed::LINE_END {
                self.end_line()?;
            } else {
                self.feed = feed::hold(&mut self.held, self.feed, *b);
            }
        }
        Ok(())
    }

    // Takes all input. A proved loop has to end: it counts its turns up to a number that no run uses up.
    fn take_all(&mut self, input: &mut impl Read) -> io::Result<()> {
        let mut block = [0u8; BLOCK];
        for _ in 0..u64::MAX {
            let n = input.read(&mut block).unwrap_or(0);
            if n == 0 {
                return Ok(());
            }
            self.take(bytes::part_of(&block, 0, n))?;
        }
        Ok(())
    }

    // Plays all input. Text after the last line end is a line where it has any character. Last the journal, whose calls are all done, is emptied.
    pub(crate) fn play(&mut self, input: &mut impl Read) -> io::Result<()> {
        self.take_all(input)?;
        if self.feed.held != 0 {
            self.end_line()?;
        }
        self.disk.empty()
    }
}
