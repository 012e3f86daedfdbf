// Calls and recovery carried out through the journal: the writes that are due, in their order.
use crate::disk::Disk;
use change::copies;
use ledger::Due;
use page::bytes;
use std::io;
use std::io::Error;

// The longest line of a journal.
const LINE: usize = 1029;

// The journal is emptied when a call leaves it longer than this.
const LONG: usize = 65536;

// More turns than any call or recovery has writes: two for each of 128 pages, ready and done.
const TURNS: u16 = 300;

impl Disk {
    // The write that is due.
    fn perform(&mut self, before: &[u8], after: &[u8], due: Due) -> io::Result<()> {
        match due {
            Due::Store(page) | Due::Back(page) => self.store(after, page),
            Due::Empty => self.empty(),
            Due::Image(_) | Due::Ready | Due::Done => {
                let mut line = [0u8; LINE];
                let n = plan::put_line(before, Some(due), &mut line).unwrap_or(0);
                self.append(bytes::part_of(&line, 0, n as usize))
            }
        }
    }

    // All writes from the first on, until one fails.
    pub(crate) fn carry_out(
        &mut self,
        marks: &[u8],
        before: &[u8],
        after: &[u8],
        first: Option<Due>,
    ) -> io::Result<()> {
        let mut next = first;
        for _ in 0..TURNS {
            let Some(due) = next else {
                return Ok(());
            };
            self.perform(before, after, due)?;
            next = plan::next(marks, next);
        }
        Err(Error::other("more writes than a call can have"))
    }

    // What a call changed from `before` to `after`; then `before` is `after`. The journal is emptied where it has grown long: every call in it
    // is done.
    pub(crate) fn keep(&mut self, before: &mut [u8], after: &[u8]) -> io::Result<()> {
        let mut space = [0u8; 128];
        let Some(n) = plan::mark(before, after, &mut space) else {
            return Ok(());
        };
        let marks = bytes::part_of(&space, 0, n as usize);
        let first = plan::first_of_call(marks);
        if first.is_none() {
            return Ok(());
        }
        self.carry_out(marks, before, after, first)?;
        copies::put_part(before, 0, after);
        if LONG < self.written {
            self.empty()?;
        }
        Ok(())
    }
}
