// The keeper: frames played as by the player, on a data file that every call reaches through a journal.
#![tactic(auto)]

mod disk;
mod fresh;
mod names;
mod opening;
mod run;
mod says;
mod through;

use lines::format;
use names::{BadName, Names};
use opening::Opened;
use run::Run;
use says::Stop;
use std::env::{Env, FillError};
use std::fs::{File, Files};
use std::io;
use std::io::{Eprint, Print, Read};

// More than a journal of keeper's has.
const JOURNAL: usize = 262144;

// Opens a data file. Never inlined, as `play`, so that what the journal is read into is off the stack while calls are played.
#[inline(never)]
fn open<'n>(
    rt: &impl Files<File = File>,
    names: &'n Names<'_>,
    table: &mut [u16],
    file: &mut [u8],
) -> Result<Opened, Stop<'n>> {
    let mut room = [0u8; JOURNAL];
    opening::open(rt, names, table, file, &mut room)
}

// Plays what comes in on an open data file, whose files are then closed.
#[inline(never)]
fn play<'n, R: Files<File = File> + Print>(
    rt: &'n R,
    names: &'n Names<'n>,
    table: &[u16; format::TABLE],
    file: &[u8; run::FILE],
    opened: Opened,
    input: &mut impl Read,
) -> io::Result<()> {
    let Opened { session, disk } = opened;
    let mut run = Run::new(rt, names, *table, *file, session, disk);
    run.play(input)
}

// Keeps a data file: opens it, and plays what comes in. Its files are closed before a message is written: where standard error was closed
// at the start, one of them has its descriptor.
fn keep<'n, R: Files<File = File> + Print + Eprint>(
    rt: &'n R,
    names: &'n Names<'n>,
    input: &mut impl Read,
) -> Result<(), Stop<'n>> {
    let mut table = [0u16; format::TABLE];
    let mut file = [0u8; run::FILE];
    let opened = open(rt, names, &mut table, &mut file)?;
    play(rt, names, &table, &file, opened, input).map_err(|why| {
        says::say(rt, Stop::Refused(names.data, why));
        Stop::Wrong(names.data, "stopped in a call; the next start recovers")
    })
}

// Argument `i`; none where it is missing, empty or longer than any name.
fn argument<'a>(rt: &HostRuntime, i: usize, room: &'a mut [u8]) -> Option<&'a [u8]> {
    let n = rt.arg(i, room).ok()?;
    let name = &room[..n];
    (!name.is_empty()).then_some(name)
}

// Whether there is no argument `i`.
fn is_missing(rt: &HostRuntime, i: usize) -> bool {
    let mut first = [0u8; 1];
    matches!(rt.arg(i, &mut first), Err(FillError::NotPresent))
}

// Says why a name is refused; where that fails, there is nobody to tell.
fn say_bad(errors: &impl Print, bad: BadName<'_>) {
    let _ = errors.write_all(b"keeper: ");
    let _ = errors.write_all(bad.name);
    let _ = print!(errors; ": {}\n", bad.what);
}

fn main(rt: HostRuntime) {
    let mut data = [0u8; names::PATH];
    let mut journal = [0u8; names::PATH];
    let (Some(data), Some(journal), true) = (
        argument(&rt, 1, &mut data),
        argument(&rt, 2, &mut journal),
        is_missing(&rt, 3),
    ) else {
        let _ = eprintln!(&rt; "usage: keeper DATA JOURNAL < FRAMES");
        return;
    };
    let names = match Names::new(data, journal) {
        Ok(names) => names,
        Err(bad) => return say_bad(&rt.stderr(), bad),
    };
    if let Err(stop) = keep(&rt, &names, &mut rt.stdin()) {
        says::say(&rt, stop);
    }
}
