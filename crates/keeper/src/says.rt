// Why keeper stops, as it says it on standard error.
use arrayvec::ArrayString;
use std::fmt;
use std::fmt::{Display, Formatter, Write};
use std::io::{Eprint, Error};

// More than any error has to say.
const WORDS: usize = 256;

// What is wrong with the file of a name, or why a call on it failed.
#[derive(Drop)]
pub enum Stop<'a> {
    Wrong(&'a str, &'static str),
    Refused(&'a str, Error),
}

// The system's words for an error, without its number.
#[derive(Drop)]
struct Words<'a>(&'a Error);

impl Display for Words<'_> {
    fn fmt<W: Write>(&self, f: &mut Formatter<W>) -> fmt::Result {
        let mut words = ArrayString::<WORDS>::new();
        let _ = write!(words, "{}", self.0);
        let all = words.as_str();
        f.write_str(
            all.split_once(" (os error ")
                .map_or(all, |(words, _)| words),
        )
    }
}

impl Display for Stop<'_> {
    fn fmt<W: Write>(&self, f: &mut Formatter<W>) -> fmt::Result {
        match self {
            Stop::Wrong(name, what) => write!(f, "{name}: {what}"),
            Stop::Refused(name, why) => write!(f, "{name}: {}", Words(why)),
        }
    }
}

// Says why keeper stops; where that fails, there is nobody to tell.
pub(crate) fn say(rt: &impl Eprint, stop: Stop<'_>) {
    let _ = eprintln!(rt; "keeper: {stop}");
}
