// The names that keeper is given, and those that belong to a data file: the files beside it, and its folder's.
use arrayvec::ArrayString;
use std::fmt::Write;
use std::fs::{File, Files};
use std::{io, str};

// Room for any path.
pub const PATH: usize = 4096;

// The longest name of a data file: an ending and a path's last 0 fit behind it.
const LONGEST: usize = 4000;

// A data file, its journal, its table, and the table of a new data file that is being put in place.
#[derive(Drop)]
pub struct Names<'a> {
    pub data: &'a str,
    pub journal: &'a str,
    pub table: ArrayString<PATH>,
    pub next: ArrayString<PATH>,
}

// A name that keeper refuses, which need not be text, and why.
#[derive(Clone, Copy)]
pub struct BadName<'a> {
    pub name: &'a [u8],
    pub what: &'static str,
}

// A name as text: the library opens no file by another.
fn text_of(name: &[u8]) -> Result<&str, BadName<'_>> {
    str::from_utf8(name).map_err(|_| BadName {
        name,
        what: "the name is not UTF-8 text",
    })
}

// A name and an ending. `LONGEST` leaves room for both.
fn beside(name: &str, ending: &str) -> ArrayString<PATH> {
    let mut path = ArrayString::new();
    let _ = write!(path, "{name}{ending}");
    path
}

impl<'a> Names<'a> {
    // The names of a data file and of its journal, which is a file of its own.
    pub(crate) fn new(data: &'a [u8], journal: &'a [u8]) -> Result<Names<'a>, BadName<'a>> {
        if LONGEST < data.len() {
            return Err(BadName {
                name: data,
                what: "the name is too long",
            });
        }
        let names = Names {
            data: text_of(data)?,
            journal: text_of(journal)?,
            table: beside(text_of(data)?, ".table"),
            next: beside(text_of(data)?, ".next"),
        };
        if names.has(names.journal) {
            return Err(BadName {
                name: journal,
                what: "the journal is a file of its own",
            });
        }
        Ok(names)
    }

    // Whether a name is the data file's, or one of those that belong to it.
    fn has(&self, name: &str) -> bool {
        name == self.data || name == self.table.as_str() || name == self.next.as_str()
    }
}

// The folder of a name, up to its last slash; the present one where it names none.
fn folder_of(name: &str) -> &str {
    match name.trim_end_matches(|c: char| c != '/') {
        "" => ".",
        folder => folder,
    }
}

// Waits until names made or changed in the folder of `name` have reached the disk.
pub(crate) fn sync_folder(rt: &impl Files<File = File>, name: &str) -> io::Result<()> {
    File::open(rt, folder_of(name))?.sync_all()
}
