#![tactic(auto)]

// Tapes in, answers out. What a tape answers is the tape crate's; the program only reads and writes.
mod argument; // argument.rt: the arguments, and what they ask for
mod bounded; // bounded.rt: bytes in a room of their own
mod file; // file.rt: a small file, read or replaced
mod help; // help.rt: what --help and --version tell
mod keep; // keep.rt: a tape whose chip comes from a file or goes into one
mod one_tape; // one_tape.rt: one tape, from a file or standard input to standard output
mod tell; // tell.rt: what is told on standard error

use argument::{Asked, Order};
use one_tape::{Chip, Source};
use std::process::ExitCode;
use tell::{Reason, Stop, tell, tell_unless};

// The exit status where nobody reads what is written: that of a program which the signal for it, number 13, has ended.
const UNREAD: u8 = 128 + 13;

fn obey(rt: HostRuntime, order: Order) -> Result<(), Stop> {
    match order {
        Order::Help => tell_unless(rt, help::print(rt)),
        Order::Version => tell_unless(rt, help::print_version(rt)),
        Order::Unknown(place) => Err(argument::tell_at(rt, place, &Reason::UnknownOption)),
    }
}

// Answers the tape of an argument, which begins without a part.
fn run_argument(rt: HostRuntime, place: usize) -> Result<(), Stop> {
    one_tape::run(rt, Source::open(rt, place)?, Chip::new())
}

// Answers every tape that is named, though one could not be read. The argument that ends the options is none.
fn run_named(rt: HostRuntime, count: usize, end: Option<usize>) -> Result<(), Stop> {
    for place in 1..count {
        if end == Some(place) {
            continue;
        }
        match run_argument(rt, place) {
            Ok(()) | Err(Stop::Told) => {}
            Err(stop) => return Err(stop),
        }
    }
    Ok(())
}

// Does what the arguments ask for.
fn run_asked(rt: HostRuntime) -> Result<(), Stop> {
    let count = argument::count(rt);
    match argument::ask_all(rt, count) {
        Ok(Asked::Order(order)) => obey(rt, order),
        Ok(Asked::Input) => one_tape::run(rt, Source::Input(rt.stdin()), Chip::new()),
        Ok(Asked::Tapes { end }) => run_named(rt, count, end),
        Ok(Asked::Kept(kept)) => keep::run_kept(rt, kept),
        Err(misuse) => Err(tell(rt, misuse.option.name(), &misuse.why)),
    }
}

fn main(rt: HostRuntime) -> ExitCode {
    match run_asked(rt) {
        Err(Stop::Unread) => ExitCode::from(UNREAD),
        Ok(()) | Err(_) => ExitCode::SUCCESS,
    }
}
