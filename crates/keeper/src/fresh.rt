// A new data file and its table put in place, whole or not at all.
//
// The table is kept as the line of the frame 00 that made the file. First the journal is emptied. The line is written beside the data file under
// a name of its own: once it has its line end, the new file is the one in force, and a start makes it again. The data file is written, and last
// the line takes the table's name.
use crate::disk::Disk;
use crate::names;
use crate::names::Names;
use std::fs::{File, Files, OpenOptions};
use std::io::{Seek, Write};
use std::{fs, io};

// The new table beside the data file: its line, and then the line end, each on the disk before the next.
fn write_next(rt: &impl Files<File = File>, names: &Names<'_>, line: &[u8]) -> io::Result<()> {
    let mut next = File::create(rt, names.next.as_str())?;
    next.write_all(line)?;
    next.sync_data()?;
    next.write_all(b"\n")?;
    next.sync_data()?;
    drop(next);
    names::sync_folder(rt, names.data)
}

// Opens a file that is there for reading and writing.
pub(crate) fn open_update(rt: &impl Files<File = File>, name: &str) -> io::Result<File> {
    OpenOptions::new().read(true).write(true).open(rt, name)
}

// The data file, which is made where it is missing.
fn open_data(rt: &impl Files<File = File>, name: &str) -> io::Result<File> {
    open_update(rt, name).or_else(|_| File::create_new(rt, name))
}

// The whole data file written.
fn write_data(data: &mut File, file: &[u8]) -> io::Result<()> {
    data.set_len(0)?;
    data.rewind()?;
    data.write_all(file)?;
    data.sync_data()
}

// The new table is in force: makes the data file under it, and gives it the table's name.
pub(crate) fn finish(
    rt: &impl Files<File = File>,
    names: &Names<'_>,
    disk: &mut Disk,
    file: &[u8],
) -> io::Result<()> {
    let mut data = match disk.data.take() {
        Some(data) => data,
        None => open_data(rt, names.data)?,
    };
    write_data(&mut data, file)?;
    disk.data = Some(data);
    disk.size = file.len();
    names::sync_folder(rt, names.data)?;
    fs::rename(rt, names.next.as_str(), names.table.as_str())?;
    names::sync_folder(rt, names.data)
}

// Puts `file` in place, made by the frame 00 on a line.
pub(crate) fn put_in_place(
    rt: &impl Files<File = File>,
    names: &Names<'_>,
    disk: &mut Disk,
    line: &[u8],
    file: &[u8],
) -> io::Result<()> {
    disk.empty()?;
    write_next(rt, names, line)?;
    finish(rt, names, disk, file)
}
