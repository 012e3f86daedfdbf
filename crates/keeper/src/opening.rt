// What stands on the disk when keeper starts: the journal, a new table that was being put in place, the table and the data file; and recovery.
use crate::disk::Disk;
use crate::names::Names;
use crate::says::Stop;
use crate::{fresh, names};
use journal::back;
use line_model::Session;
use lines::{feed, format, input, line};
use page::bytes;
use std::fs::{File, Files};
use std::io;
use std::io::{ErrorKind, Read};

// What to go on with: the session and the disk.
#[derive(Drop)]
pub struct Opened {
    pub session: Session,
    pub disk: Disk,
}

// What a start finds: no table; a table's line; or that of a new file that is being put in place.
#[derive(Clone, Copy)]
enum Found<'a> {
    Nothing,
    Table(&'a [u8]),
    New(&'a [u8]),
}

// A byte more than the longest line and its line end, so that a longer text is known.
const KEPT: usize = 1102;

// Opens the journal, or makes it, so that its name is on the disk before any line.
fn open_journal(rt: &impl Files<File = File>, name: &str) -> io::Result<File> {
    match fresh::open_update(rt, name) {
        Err(why) if why.kind() == ErrorKind::NotFound => make_journal(rt, name),
        opened => opened,
    }
}

// Makes the journal.
fn make_journal(rt: &impl Files<File = File>, name: &str) -> io::Result<File> {
    let made = File::create_new(rt, name);
    names::sync_folder(rt, name)?;
    made
}

// Reads the journal into `room`. What can be none is refused, since recovery would empty the file: every journal begins with the high digits of a
// page number, as far as it goes.
fn read_journal<'a, 'n>(
    journal: &mut File,
    name: &'n str,
    room: &'a mut [u8],
) -> Result<&'a [u8], Stop<'n>> {
    let n = input::read_full(journal, room);
    if room.len() <= n {
        return Err(Stop::Wrong(name, "longer than any journal of keeper's"));
    }
    let text = &room[..n];
    if !text.iter().take(2).all(|&digit| digit == b'0') {
        return Err(Stop::Wrong(name, "not a journal"));
    }
    Ok(text)
}

// The line that is all of what was read, with its line end; empty where it is not whole, and all of it where it is longer than any.
fn line_in(text: &[u8], n: usize) -> &[u8] {
    let read = bytes::part_of(text, 0, n);
    if text.len() <= n {
        return read;
    }
    read.strip_suffix(&[feed::LINE_END]).unwrap_or(&[])
}

// Reads a file of one line, if it is there, and waits until what was read is on the disk: a run that was killed may not have.
fn read_line<'a, 'n>(
    rt: &impl Files<File = File>,
    path: &'n str,
    text: &'a mut [u8],
) -> Result<Option<&'a [u8]>, Stop<'n>> {
    let mut file = match File::open(rt, path) {
        Ok(file) => file,
        Err(why) if why.kind() == ErrorKind::NotFound => return Ok(None),
        Err(why) => return Err(Stop::Refused(path, why)),
    };
    let n = input::read_full(&mut file, text);
    file.sync_data().map_err(|why| Stop::Refused(path, why))?;
    Ok(Some(line_in(text, n)))
}

// Finds the new table beside the data file, or the table where there is no new one that is whole.
fn find_table<'a, 'n>(
    rt: &impl Files<File = File>,
    names: &'n Names<'_>,
    next: &'a mut [u8],
    table: &'a mut [u8],
) -> Result<Found<'a>, Stop<'n>> {
    if let Some(line) = read_line(rt, names.next.as_str(), next)? {
        if !line.is_empty() {
            return Ok(Found::New(line));
        }
    }
    let line = read_line(rt, names.table.as_str(), table)?;
    Ok(line.map_or(Found::Nothing, Found::Table))
}

// Plays the line of a kept table, which makes a fresh file in memory; the session under it, none where it is no table.
fn play_table(table: &mut [u16], file: &mut [u8], text: &[u8]) -> Option<Session> {
    let mut out = [0u8; feed::PRINTED];
    let session = line::play(table, file, format::start(), text, &mut out).session;
    (session.words != 0).then_some(session)
}

// Reads a data file of as many bytes as `file` has, and no more.
fn read_data(data: &mut File, file: &mut [u8]) -> bool {
    let mut more = [0u8; 1];
    input::read_full(data, file) == file.len() && matches!(data.read(&mut more), Ok(0))
}

// Recovers the data file from the journal.
fn recover<'n>(
    name: &'n str,
    file: &mut [u8],
    text: &[u8],
    mut disk: Disk,
) -> Result<Disk, Stop<'n>> {
    let mut stored = [0u8; 128];
    back::recover(file, text, &mut stored).map_err(|_| {
        Stop::Wrong(
            name,
            "refused with 13: a complete line is malformed or out of place",
        )
    })?;
    let marks = bytes::part_of(&stored, 0, file.len() / 512);
    let first = plan::first_of_recovery(marks);
    disk.carry_out(marks, file, file, first)
        .map_err(|why| Stop::Refused(name, why))?;
    Ok(disk)
}

// Opens the data file under its table, and recovers it.
fn open_data<'n>(
    rt: &impl Files<File = File>,
    names: &'n Names<'_>,
    table: &[u16],
    file: &mut [u8],
    text: &[u8],
    journal: File,
) -> Result<Disk, Stop<'n>> {
    let size = format::file_bytes(table);
    let mut data = fresh::open_update(rt, names.data).map_err(|why| Stop::Refused(
        names.data, why,
    ))?;
    let wrong = Stop::Wrong(names.data, "not of the size that its table asks");
    let Some(file) = file.get_mut(..size) else {
        return Err(wrong);
    };
    if !read_data(&mut data, file) {
        return Err(wrong);
    }
    let disk = Disk {
        data: Some(data),
        journal,
        size,
        written: text.len(),
    };
    recover(names.journal, file, text, disk)
}

// Goes on from where there is no table: there must be no data file either, and nothing in the journal.
fn open_none<'n>(
    rt: &impl Files<File = File>,
    names: &'n Names<'_>,
    text: &[u8],
) -> Result<(), Stop<'n>> {
    match File::open(rt, names.data) {
        Ok(_) => return Err(Stop::Wrong(names.data, "there is no table beside it")),
        Err(why) if why.kind() == ErrorKind::NotFound => {}
        Err(why) => return Err(Stop::Refused(names.data, why)),
    }
    if text.is_empty() {
        return Ok(());
    }
    Err(Stop::Wrong(names.journal, "not empty, but there is no data file"))
}

// Goes on where a new file was being put in place: its table is whole.
fn go_on<'n>(
    rt: &impl Files<File = File>,
    names: &'n Names<'_>,
    file: &[u8],
    text: &[u8],
    mut disk: Disk,
) -> Result<Disk, Stop<'n>> {
    if !text.is_empty() {
        return Err(Stop::Wrong(
            names.journal,
            "not empty, but a new data file was being put in place",
        ));
    }
    fresh::finish(rt, names, &mut disk, file).map_err(|why| Stop::Refused(names.data, why))?;
    Ok(disk)
}

// Opens the data file or begins with none, with the journal's text read.
fn open_files<'n>(
    rt: &impl Files<File = File>,
    names: &'n Names<'_>,
    table: &mut [u16],
    file: &mut [u8],
    text: &[u8],
    journal: File,
) -> Result<Opened, Stop<'n>> {
    let mut next = [0u8; KEPT];
    let mut kept = [0u8; KEPT];
    let disk = Disk {
        data: None,
        journal,
        size: 0,
        written: 0,
    };
    let found = find_table(rt, names, &mut next, &mut kept)?;
    let (Found::Table(line) | Found::New(line)) = found else {
        open_none(rt, names, text)?;
        let session = format::start();
        return Ok(Opened { session, disk });
    };
    let Some(session) = play_table(table, file, line) else {
        return Err(Stop::Wrong(names.data, "the table beside it is not accepted"));
    };
    let disk = if matches!(found, Found::New(_)) {
        let made = bytes::part_of(file, 0, format::file_bytes(table));
        go_on(rt, names, made, text, disk)?
    } else {
        open_data(rt, names, table, file, text, disk.journal)?
    };
    Ok(Opened { session, disk })
}

// Opens the journal and the data file, or begins with none. First it waits until the names that are there are on the disk: a run that was killed
// may not have.
pub(crate) fn open<'n>(
    rt: &impl Files<File = File>,
    names: &'n Names<'_>,
    table: &mut [u16],
    file: &mut [u8],
    room: &mut [u8],
) -> Result<Opened, Stop<'n>> {
    for name in [names.data, names.journal] {
        names::sync_folder(rt, name).map_err(|why| Stop::Refused(name, why))?;
    }
    let mut journal = open_journal(rt, names.journal).map_err(|why| Stop::Refused(
        names.journal,
        why,
    ))?;
    let text = read_journal(&mut journal, names.journal, room)?;
    open_files(rt, names, table, file, text, journal)
}
