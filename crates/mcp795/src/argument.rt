// The arguments and what they ask for. Each is named by its place, as the system gives it: std's `args` needs the heap, and refuses a name that is not UTF-8.
use crate::bounded::Bounded;
use crate::file::NAME_ROOM;
use crate::tell::{Reason, Stop, tell, tell_error};
use std::env::{Env, FillError};
use std::io;
use text::bytes;

// A name, as long as one is taken from an argument.
pub type Name = Bounded<NAME_ROOM>;

// The beginning of an argument that is too long to be taken, with two dots behind it.
#[derive(Drop)]
pub struct TooLong(Name);

// How many bytes are shown of an argument that is too long to be taken.
const BEGINNING: usize = 60;

// The number of the system's error for a name that is too long.
const ENAMETOOLONG: i32 = 36;

// The options that name a chip's file.
#[derive(Clone, Copy)]
pub enum Keeping {
    Load,
    Save,
}

// An option that is obeyed before any tape is answered. One that is not known is named by its place.
#[derive(Clone, Copy)]
pub enum Order {
    Help,
    Version,
    Unknown(usize),
}

// What an argument is where an option may stand.
#[derive(Clone, Copy)]
enum Word {
    End,
    Keeping(Keeping),
    Order(Order),
    Tape,
}

// The places of a chip's files and of the one tape.
#[derive(Clone, Copy)]
pub struct Kept {
    pub load: Option<usize>,
    pub save: Option<usize>,
    pub tape: Option<usize>,
}

// What is asked for: to obey an option, to answer standard input, to answer every tape that is named, or one whose chip is loaded or saved.
#[derive(Clone, Copy)]
pub enum Asked {
    Order(Order),
    Input,
    Tapes { end: Option<usize> },
    Kept(Kept),
}

// What is wrong with the use of an option.
#[derive(Drop)]
pub struct Misuse {
    pub option: Keeping,
    pub why: Reason,
}

// What the arguments have said: the files and the last tape; the option whose file is the next argument, and one that stood twice; the argument that
// ended the options; whether there are several tapes.
#[derive(Clone, Copy)]
struct Said {
    kept: Kept,
    next: Option<Keeping>,
    twice: Option<Keeping>,
    end: Option<usize>,
    several: bool,
}

impl Keeping {
    pub(crate) fn name(self) -> &'static [u8] {
        match self {
            Keeping::Load => b"--load",
            Keeping::Save => b"--save",
        }
    }
}

// An argument.
fn argument(rt: HostRuntime, place: usize) -> Result<Name, TooLong> {
    let mut room = [0u8; NAME_ROOM];
    match rt.arg(place, &mut room) {
        Ok(length) => Ok(Name::first(room, length)),
        Err(_) => {
            let mut beginning = Name::first(room, BEGINNING);
            beginning.extend(b"..");
            Err(TooLong(beginning))
        }
    }
}

// The same, as it is told.
fn shown(rt: HostRuntime, place: usize) -> Name {
    match argument(rt, place) {
        Ok(name) => name,
        Err(TooLong(beginning)) => beginning,
    }
}

// Tells what failed at an argument.
pub(crate) fn tell_at(rt: HostRuntime, place: usize, why: &Reason) -> Stop {
    tell(rt, shown(rt, place).as_slice(), why)
}

// An argument that is a name. Where it is too long, that is told. By a `match`: the closure of a `map_err` would make the room of a name once more.
pub(crate) fn named(rt: HostRuntime, place: usize) -> Result<Name, Stop> {
    match argument(rt, place) {
        Ok(name) => Ok(name),
        Err(TooLong(beginning)) => {
            let error = io::Error::from_raw_os_error(ENAMETOOLONG);
            Err(tell_error(rt, beginning.as_slice(), error))
        }
    }
}

// What an argument is where an option may stand. The dash alone is a tape.
fn word_at(rt: HostRuntime, place: usize) -> Word {
    match shown(rt, place).as_slice() {
        b"--" => Word::End,
        b"--load" => Word::Keeping(Keeping::Load),
        b"--save" => Word::Keeping(Keeping::Save),
        b"--help" | b"-h" => Word::Order(Order::Help),
        b"--version" => Word::Order(Order::Version),
        [b'-', _, ..] => Word::Order(Order::Unknown(place)),
        _ => Word::Tape,
    }
}

impl Said {
    // Nothing yet.
    fn new() -> Said {
        Said {
            kept: Kept {
                load: None,
                save: None,
                tape: None,
            },
            next: None,
            twice: None,
            end: None,
            several: false,
        }
    }

    // The file of an option.
    fn file(&mut self, option: Keeping) -> &mut Option<usize> {
        match option {
            Keeping::Load => &mut self.kept.load,
            Keeping::Save => &mut self.kept.save,
        }
    }

    fn add_option(&mut self, option: Keeping) {
        if self.file(option).is_some() {
            self.twice = Some(option);
        }
        self.next = Some(option);
    }

    fn add_tape(&mut self, place: usize) {
        self.several |= self.kept.tape.is_some();
        self.kept.tape = Some(place);
    }

    // One argument: an option's file, an option, or a tape. An option that is obeyed is answered.
    fn add(&mut self, rt: HostRuntime, place: usize) -> Option<Order> {
        if let Some(option) = self.next.take() {
            *self.file(option) = Some(place);
            return None;
        }
        if self.end.is_some() {
            self.add_tape(place);
            return None;
        }
        match word_at(rt, place) {
            Word::End => self.end = Some(place),
            Word::Keeping(option) => self.add_option(option),
            Word::Order(order) => return Some(order),
            Word::Tape => self.add_tape(place),
        }
        None
    }

    // The first thing that is wrong with the use of --load and --save.
    fn check(&self) -> Result<(), Misuse> {
        let (option, why) = match self {
            Said {
                twice: Some(option),
                ..
            } => (*option, Reason::GivenTwice),
            Said {
                next: Some(option),
                ..
            } => (*option, Reason::FileNotNamed),
            Said {
                several: true,
                kept: Kept { load: Some(_), .. },
                ..
            } => (Keeping::Load, Reason::SeveralTapes),
            Said {
                several: true,
                kept: Kept { save: Some(_), .. },
                ..
            } => (Keeping::Save, Reason::SeveralTapes),
            _ => return Ok(()),
        };
        Err(Misuse { option, why })
    }

    fn asked(self) -> Result<Asked, Misuse> {
        self.check()?;
        match self.kept {
            Kept {
                load: None,
                save: None,
                tape: None,
            } => Ok(Asked::Input),
            Kept {
                load: None,
                save: None,
                ..
            } => Ok(Asked::Tapes { end: self.end }),
            kept => Ok(Asked::Kept(kept)),
        }
    }
}

// What the arguments ask for, up to the first option that is obeyed.
pub(crate) fn ask_all(rt: HostRuntime, count: usize) -> Result<Asked, Misuse> {
    let mut said = Said::new();
    for place in 1..count {
        if let Some(order) = said.add(rt, place) {
            return Ok(Asked::Order(order));
        }
    }
    said.asked()
}

// Whether there is no argument at this place.
fn is_missing(rt: HostRuntime, place: usize) -> bool {
    let mut room = [0u8; 1];
    matches!(rt.arg(place, &mut room), Err(FillError::NotPresent))
}

// How many arguments there are, the program's name among them.
pub(crate) fn count(rt: HostRuntime) -> usize {
    (0..usize::MAX)
        .find(|place| is_missing(rt, *place))
        .unwrap_or(usize::MAX)
}
