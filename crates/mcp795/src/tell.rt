// What is told on standard error: a line for each failure, with the program, what it is about, and the reason.
use crate::bounded::Bounded;
use crate::file::NAME_ROOM;
use std::fmt::InlineText;
use std::io::{ErrorKind, Write};
use std::{fmt, io};

// Why a tape, or the program, goes no further: something failed, which was told; standard output did not take a text, which was told; nobody reads it
// any more.
#[derive(Clone, Copy)]
pub enum Stop {
    Told,
    Output,
    Unread,
}

// Why something was not done, as the line says it.
#[derive(Drop)]
pub enum Reason {
    System(io::Error),
    UnknownOption,
    GivenTwice,
    FileNotNamed,
    SeveralTapes,
    LongerFile,
    Refused { number: u8, line: Option<usize> },
    NoPart,
    TapeBroken,
}

// Room for the reason of a failure, as the library words it.
const REASON_ROOM: usize = 256;

// The words of a reason, without the number that the library puts behind the system's.
fn words(reason: &str) -> &str {
    match reason.split_once(" (os error ") {
        Some((words, _)) => words,
        None => reason,
    }
}

impl fmt::Display for Reason {
    fn fmt<W: fmt::Write>(&self, f: &mut fmt::Formatter<W>) -> fmt::Result {
        match self {
            Reason::System(error) => {
                f.write_str(words(InlineText::<REASON_ROOM>::of(error).as_str()))
            }
            Reason::UnknownOption => f.write_str("unknown option (--help tells the use)"),
            Reason::GivenTwice => f.write_str("given twice"),
            Reason::FileNotNamed => f.write_str("its file is not named"),
            Reason::SeveralTapes => f.write_str("takes one tape at most"),
            Reason::LongerFile => f.write_str("it was not read to its end"),
            Reason::Refused { number, line: None } => write!(f, "refused by {number}"),
            Reason::Refused {
                number,
                line: Some(line),
            } => write!(f, "refused by {number}, line {line}"),
            Reason::NoPart => f.write_str("nothing to save: the tape names no part"),
            Reason::TapeBroken => f.write_str("not saved: the tape was not answered to its end"),
        }
    }
}

// A byte as a line shows it: one that would end the line or steer a terminal becomes a question mark.
fn shown_byte(byte: u8) -> u8 {
    match byte {
        0..b' ' | 0x7f => b'?',
        _ => byte,
    }
}

// Bytes as a line shows them, as many as there is room for; none as two quotes.
fn shown(what: &[u8]) -> Bounded<NAME_ROOM> {
    let mut shown = Bounded::new();
    if what.is_empty() {
        shown.extend(b"''");
    }
    for byte in what {
        shown.push(shown_byte(*byte));
    }
    shown
}

// Tells what failed, and why, as far as standard error takes it.
pub(crate) fn tell(rt: HostRuntime, what: &[u8], why: &Reason) -> Stop {
    let mut stderr = rt.stderr();
    let _ = stderr.write_all(b"mcp795: ");
    let _ = stderr.write_all(shown(what).as_slice());
    let _ = eprintln!(rt; ": {why}");
    Stop::Told
}

// Tells that the system failed at something.
pub(crate) fn tell_error(rt: HostRuntime, what: &[u8], error: io::Error) -> Stop {
    tell(rt, what, &Reason::System(error))
}

// How standard output took a text. Where it did not, that is told, but where nobody reads it any more.
pub(crate) fn tell_unless(rt: HostRuntime, written: io::Result<()>) -> Result<(), Stop> {
    written.map_err(|error| match error.kind() {
        ErrorKind::BrokenPipe => Stop::Unread,
        _ => {
            tell_error(rt, b"standard output", error);
            Stop::Output
        }
    })
}
