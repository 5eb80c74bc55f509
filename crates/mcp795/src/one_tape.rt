// One tape, from a file or standard input to standard output. All answers to what has been read are written before more is read.
ghost use Rattle.std.specs.Prelude.{◌*◌, ◌≤◌, length};
ghost use Rattle.std.specs.Io.{ReadsAtMost};
ghost use Rattle.lines.specs.Print.{answer_room};
ghost use Rattle.tape.specs.Tape.{loan};
ghost use Rattle.mcp795.specs.Reading.{IsFed, FeedsAll, Ends, FeedsRead, FedOn, RunsFrom, put_by, more_after};

use crate::argument::Name;
use crate::tell::{Stop, tell_error, tell_unless};
use crate::{argument, file};
use record::Device;
use std::fs::File;
use std::io;
use std::io::{Read, Stdin};
use tape::Tape;
use text::bytes;

// Bytes that are read at once; and room for the answers to all of them, were each a line of its own.
const INPUT_ROOM: usize = 4096;

const OUT_ROOM: usize = INPUT_ROOM * codec::print::ANSWER_ROOM;

// Where a tape is read from: standard input, or a file by its name.
#[derive(Drop)]
pub enum Source {
    Input(Stdin),
    File(File, Name),
}

impl Source {
    // Opens the tape of an argument. The dash is standard input.
    pub(crate) fn open(rt: HostRuntime, place: usize) -> Result<Source, Stop> {
        let name = argument::named(rt, place)?;
        if matches!(name.as_slice(), b"-") {
            return Ok(Source::Input(rt.stdin()));
        }
        match file::open_read(rt, name.as_slice()) {
            Ok(file) => Ok(Source::File(file, name)),
            Err(error) => Err(tell_error(rt, name.as_slice(), error)),
        }
    }

    // What it is called where it cannot be read.
    fn name(&self) -> &[u8] {
        match self {
            Source::Input(_) => b"standard input",
            Source::File(_, name) => name.as_slice(),
        }
    }

    // Reads once, and answers how many bytes came, 0 at the end.
    fn read(&mut self, input: &mut [u8]) -> io::Result<usize>
        ensures { ReadsAtMost result input.new }
    {
        match self {
            Source::Input(stdin) => stdin.read(input),
            Source::File(file, _) => file.read(input),
        }
    }
}

// What is read at once, and the answers to it.
#[derive(Drop)]
struct Turn {
    input: [u8; INPUT_ROOM],
    out: [u8; OUT_ROOM],
}

// What a read gave: how many bytes of answers are at the output's beginning; whether there is more to read, or the tape is at its end.
#[derive(Clone, Copy)]
pub enum Put {
    More(usize),
    Last(usize),
}

// A chip: its part, 0 where there is none, its record, and its memories in the lengths that are lent to a tape.
#[derive(Drop)]
pub struct Chip {
    pub part: u64,
    pub device: Device,
    pub eeprom: [u8; tape::chunk::EEPROM_ROOM],
    pub id: [u8; tape::chunk::ID_SIZE],
}

impl Chip {
    // No chip.
    pub(crate) fn new() -> Chip {
        Chip {
            part: 0,
            device: record::fresh_device(),
            eeprom: [0; tape::chunk::EEPROM_ROOM],
            id: [0; tape::chunk::ID_SIZE],
        }
    }
}

// A tape, how far it has come, and what it is lent: the head of a line, and the memories of its chip. They hold the state that some bytes lead to.
#[derive(Drop)]
pub struct Running {
    pub tape: Tape,
    line: [u8; tape::chunk::HEAD_LIMIT],
    pub eeprom: [u8; tape::chunk::EEPROM_ROOM],
    pub id: [u8; tape::chunk::ID_SIZE],
    ghost fed: { ∥ IsFed (loan tape line eeprom id) ∥₁ },
}

impl Running {
    ghost use Rattle.mcp795.specs.Running.{lent};

    // Answers what was read, and tells how many bytes of answers there are.
    fn answer(&mut self, chunk: &[u8], out: &mut [u8]) -> usize
        requires chunk_in_bounds { answer_room * length chunk.now ≤ length out.old }
        ensures { FeedsAll (lent self.old) chunk.now
            (lent self.new) out.new result }
    {
        let fed = tape::chunk::feed(
            chunk,
            self.tape,
            &mut self.line,
            &mut self.eeprom,
            &mut self.id,
            out,
            0,
        );
        self.tape = fed.tape;
        fed.at
    }

    // The end of a tape: its last line may have no newline.
    fn finish(&mut self, out: &mut [u8]) -> usize
        ensures { Ends (lent self.old) out.old
            (lent self.new) out.new result }
    {
        let last = tape::chunk::finish(
            self.tape,
            &mut self.line,
            &mut self.eeprom,
            &mut self.id,
            out,
            0,
        );
        self.tape = last.tape;
        last.at
    }

    // Reads once, and answers what came.
    fn read_once(&mut self, source: &mut Source, turn: &mut Turn) -> io::Result<Put>
        ensures { FeedsRead (lent self.old) turn.old.out turn.new.input
            (lent self.new) turn.new.out (put_by result) (more_after result) }
    {
        let n = source.read(&mut turn.input)?;
        if n == 0 {
            return Ok(Put::Last(self.finish(&mut turn.out)));
        }
        Ok(Put::More(self.answer(&turn.input[..n], &mut turn.out)))
    }

    // Reads to the end. The turns are counted up to a number that no run uses up, so the loop ends.
    fn read_all(
        &mut self,
        rt: HostRuntime,
        source: &mut Source,
        turn: &mut Turn,
    ) -> Result<(), Stop>
        ensures { FedOn (lent self.old)
            (lent self.new) }
    {
        for _ in 0..u64::MAX {
            match self.read_once(source, turn) {
                Ok(Put::More(put)) => write_answers(rt, bytes::first(&turn.out, put))?,
                Ok(Put::Last(put)) => return write_answers(rt, bytes::first(&turn.out, put)),
                Err(error) => return Err(tell_error(rt, source.name(), error)),
            }
        }
        Err(Stop::Told)
    }
}

// Writes answers, and tells where that fails.
fn write_answers(rt: HostRuntime, answers: &[u8]) -> Result<(), Stop> {
    tell_unless(rt, rt.write_all(answers))
}

// Answers a tape that begins with a chip, or without a part where there is none. What it leaves is answered, and whether it was answered to its end.
pub(crate) fn run_tape(
    rt: HostRuntime,
    source: &mut Source,
    chip: Chip,
) -> (Running, Result<(), Stop>)
    ensures { RunsFrom chip.part chip.device chip.eeprom chip.id result.0.tape result.0.eeprom result.0.id }
{
    let Chip {
        part,
        device,
        eeprom,
        id,
    } = chip;
    let mut turn = Turn {
        input: [0; INPUT_ROOM],
        out: [0; OUT_ROOM],
    };
    let mut running = Running {
        tape: tape::chunk::resume(part, device, &eeprom, &id),
        line: [0; tape::chunk::HEAD_LIMIT],
        eeprom,
        id,
    };
    let ran = running.read_all(rt, source, &mut turn);
    (running, ran)
}

// The same, where what it leaves is of no use.
pub(crate) fn run(rt: HostRuntime, mut source: Source, chip: Chip) -> Result<(), Stop> {
    let (_, ran) = run_tape(rt, &mut source, chip);
    ran
}
