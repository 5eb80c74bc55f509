// A small file, read whole, or put in the place of an old one. What fails is told.
ghost use Rattle.std.specs.Prelude.{◌≤◌, length};

use crate::bounded::Bounded;
use crate::tell::{Reason, Stop, tell, tell_error};
use std::fs::{File, OpenOptions};
use std::io::{ErrorKind, Read, Write};
use std::{fs, io, str};
use text::{buffer, bytes};

// The longest name that is taken from an argument, and room for what is put behind it.
pub const NAME_ROOM: usize = 4096;

const PATH_ROOM: usize = NAME_ROOM + 8;

// How many names are tried for a file that is made beside another.
const DIGITS: u8 = 10;

// The number of the system's error for bytes that are no text.
const EILSEQ: i32 = 84;

// A file that was made beside another, and its path.
#[derive(Drop)]
struct Beside {
    file: File,
    path: Bounded<PATH_ROOM>,
}

// A name as the library takes one: as text.
fn path(name: &[u8]) -> io::Result<&str> {
    str::from_utf8(name).map_err(|_| io::Error::from_raw_os_error(EILSEQ))
}

// Opens a file to be read.
pub(crate) fn open_read(rt: HostRuntime, name: &[u8]) -> io::Result<File> {
    File::open(&rt, path(name)?)
}

// Opens a file to be read and written.
// Kept beside `create`: they differ in the options, and one function would be handed those.
fn open_update(rt: HostRuntime, name: &[u8]) -> io::Result<File> {
    let mut options = OpenOptions::new();
    options.read(true).write(true);
    options.open(&rt, path(name)?)
}

// Makes a file that was not there.
fn create(rt: HostRuntime, name: &[u8]) -> io::Result<File> {
    let mut options = OpenOptions::new();
    options.write(true).create_new(true);
    options.open(&rt, path(name)?)
}

// Takes a file away, where that can be done.
fn unlink(rt: HostRuntime, name: &[u8]) {
    if let Ok(path) = path(name) {
        let _ = fs::remove_file(&rt, path);
    }
}

fn rename(rt: HostRuntime, from: &[u8], to: &[u8]) -> io::Result<()> {
    fs::rename(&rt, path(from)?, path(to)?)
}

// Reads until the text is full, the file ends or a read fails, and answers how many bytes came. A loop that is no count: it goes on by what a read gave,
// and reads nothing more once the text is full.
fn read_full(file: &mut File, text: &mut [u8]) -> usize
    ensures { result ≤ length text.new }
{
    let mut done: usize = 0;
    while done < text.len() {
        match file.read(&mut text[done..]) {
            Ok(0) | Err(_) => break,
            Ok(n) => done += n,
        }
    }
    done
}

// That a file has no more to read. `read_full` does not tell a failure from the end: a read that follows it does.
fn check_end(file: &mut File) -> Result<(), Reason> {
    let mut more = [0u8; 1];
    match file.read(&mut more) {
        Ok(0) => Ok(()),
        Ok(_) => Err(Reason::LongerFile),
        Err(error) => Err(Reason::System(error)),
    }
}

// The first bytes of a file, as many as there is room for, where it can be read to its end or to the end of the room.
fn try_read<const N: usize>(rt: HostRuntime, name: &[u8]) -> Result<Bounded<N>, Reason> {
    let mut file = open_read(rt, name).map_err(Reason::System)?;
    let mut room = [0u8; N];
    let length = read_full(&mut file, &mut room);
    if length < N {
        check_end(&mut file)?;
    }
    Ok(Bounded::first(room, length))
}

// The same; what fails is told.
pub(crate) fn read<const N: usize>(rt: HostRuntime, name: &[u8]) -> Result<Bounded<N>, Stop> {
    try_read(rt, name).map_err(|why| tell(rt, name, &why))
}

// The path of a file beside another: its name with `.new` and a digit behind it. It is put by what asks for room, so that the room is proved to hold all of it.
fn path_beside(name: &[u8], digit: u8) -> Bounded<PATH_ROOM> {
    let mut room = [0u8; PATH_ROOM];
    let n = buffer::put(bytes::first(name, NAME_ROOM), &mut room, 0);
    let m = buffer::put(b".new", &mut room, n);
    let length = buffer::put_one(b'0' + digit % DIGITS, &mut room, m);
    Bounded::first(room, length)
}

// Makes a file beside another, with the first digit whose name is free.
fn create_beside(rt: HostRuntime, name: &[u8]) -> Result<Beside, Stop> {
    for digit in 0..DIGITS {
        let path = path_beside(name, digit);
        match create(rt, path.as_slice()) {
            Ok(file) => return Ok(Beside { file, path }),
            Err(error) => {
                let is_taken = error.kind() == ErrorKind::AlreadyExists;
                if !is_taken | (digit == DIGITS - 1) {
                    return Err(tell_error(rt, path.as_slice(), error));
                }
            }
        }
    }
    Err(Stop::Told)
}

// Writes a text to a file until it has reached its device.
fn write_through(file: &mut File, text: &[u8]) -> io::Result<()> {
    file.write_all(text)?;
    file.sync_all()
}

// Writes a text to a file that was just made, until it has reached its device, and closes it.
fn fill(rt: HostRuntime, mut file: File, path: &[u8], text: &[u8]) -> Result<(), Stop> {
    write_through(&mut file, text).map_err(|error| tell_error(rt, path, error))
}

// Gives a file the name of another, which is gone then.
fn take_name(rt: HostRuntime, beside: &[u8], name: &[u8]) -> Result<(), Stop> {
    rename(rt, beside, name).map_err(|error| tell_error(rt, name, error))
}

// Puts a text in the place of a file: into a new one beside it, which then takes its name. Whatever fails, the old file stays as it was.
pub(crate) fn replace(rt: HostRuntime, name: &[u8], text: &[u8]) -> Result<(), Stop> {
    let Beside { file, path } = create_beside(rt, name)?;
    let beside = path.as_slice();
    let replaced = fill(rt, file, beside, text).and_then(|()| take_name(rt, beside, name));
    if replaced.is_err() {
        unlink(rt, beside);
    }
    replaced
}

// That there is no file of this name, or one that can be written and is no device, directory or pipe.
fn check_replaceable(rt: HostRuntime, name: &[u8]) -> io::Result<()> {
    match open_update(rt, name) {
        Ok(file) => file.sync_all(),
        Err(error) => {
            if error.kind() == ErrorKind::NotFound {
                return Ok(());
            }
            Err(error)
        }
    }
}

// That a file can be replaced, as far as can be seen before: one can be made beside it.
pub(crate) fn check(rt: HostRuntime, name: &[u8]) -> Result<(), Stop> {
    check_replaceable(rt, name).map_err(|error| tell_error(rt, name, error))?;
    let Beside { file, path } = create_beside(rt, name)?;
    drop(file);
    unlink(rt, path.as_slice());
    Ok(())
}
