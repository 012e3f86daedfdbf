// The data file and the journal on the disk. Each write has reached it before the next is begun.
use page::room;
use std::fs::File;
use std::io;
use std::io::{Error, ErrorKind, Seek, Write};
use std::os::unix::fs::FileExt;

// The open files (no data file before there is one), the data file's size and the journal's length. Once a write has failed, nothing more
// is written.
#[derive(Drop)]
pub struct Disk {
    pub data: Option<File>,
    pub journal: File,
    pub size: usize,
    pub written: usize,
}

impl Disk {
    // A line at the journal's end.
    pub(crate) fn append(&mut self, line: &[u8]) -> io::Result<()> {
        self.journal.write_all(line)?;
        self.written = self.written.wrapping_add(line.len());
        self.journal.sync_data()
    }

    // Page `page` of `file` over the old one.
    pub(crate) fn store(&self, file: &[u8], page: usize) -> io::Result<()> {
        let Some(data) = &self.data else {
            return Err(Error::new(ErrorKind::NotFound, "there is no data file"));
        };
        if page == 0 || 128 < page {
            return Err(Error::new(ErrorKind::InvalidInput, "there is no such page"));
        }
        let number = page as u32;
        let start = 512 * (number - 1);
        let put = data.write_at(room::page_of(file, number), start as u64)?;
        if put != 512 {
            return Err(Error::new(ErrorKind::WriteZero, "a page was not written whole"));
        }
        data.sync_data()
    }

    // The journal emptied.
    pub(crate) fn empty(&mut self) -> io::Result<()> {
        self.journal.set_len(0)?;
        self.journal.rewind()?;
        self.written = 0;
        self.journal.sync_data()
    }
}
