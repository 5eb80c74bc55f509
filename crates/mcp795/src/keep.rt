// A tape that begins with a chip from a file, or whose chip is put into one after the last line.
use crate::argument::Kept;
use crate::one_tape::{Chip, Running, Source};
use crate::tell::{Reason, Stop, tell};
use crate::{argument, file, one_tape};
use saved::{LoadError, Loaded, SaveError};
use text::bytes;

// Room for a saved chip. The text of one has fewer bytes, so that the first bad line of a longer file begins in the first bytes, and is bad there too.
const TEXT_ROOM: usize = 8192;

// The bytes of the smaller EEPROM; the larger has all that a tape is lent.
const SMALLER: usize = 128;

// Loads a text. The memories are lent in the lengths of the larger parts, and where these are not the text's in those of the smaller.
fn load_chip(
    text: &[u8],
    eeprom: &mut [u8; tape::chunk::EEPROM_ROOM],
    id: &mut [u8; tape::chunk::ID_SIZE],
) -> Result<Loaded, LoadError> {
    let larger = saved::load(text, eeprom, id);
    if !matches!(larger, Err(LoadError::WrongLength)) {
        return larger;
    }
    saved::load(text, &mut eeprom[..SMALLER], id)
}

// The chip of a text.
fn load_text(text: &[u8]) -> Result<Chip, Reason> {
    let mut chip = Chip::new();
    let loaded = load_chip(text, &mut chip.eeprom, &mut chip.id).map_err(not_loaded)?;
    chip.part = loaded.part;
    chip.device = loaded.device;
    Ok(chip)
}

// A text is refused by a number, and there may be a first bad line; a chip is by a number alone.
fn not_loaded(error: LoadError) -> Reason {
    let line = match error {
        LoadError::BadLine(line) => Some(line),
        LoadError::WrongLength => None,
    };
    Reason::Refused {
        number: u8::from(error),
        line,
    }
}

fn not_saved(error: SaveError) -> Reason {
    Reason::Refused {
        number: u8::from(error),
        line: None,
    }
}

// The chip of a file.
fn load(rt: HostRuntime, place: usize) -> Result<Chip, Stop> {
    let name = argument::named(rt, place)?;
    let text = file::read::<TEXT_ROOM>(rt, name.as_slice())?;
    load_text(text.as_slice()).map_err(|why| tell(rt, name.as_slice(), &why))
}

// Saves the chip that a tape left.
fn save(rt: HostRuntime, name: &[u8], left: &Running) -> Result<(), Stop> {
    let part = left.tape.part;
    if part == 0 {
        return Err(tell(rt, name, &Reason::NoPart));
    }
    let size = record::part::size(part) as usize;
    let mut room = [0u8; TEXT_ROOM];
    let length = saved::save(
        part,
        left.tape.device,
        bytes::first(&left.eeprom, size),
        &left.id,
        &mut room,
    )
    .map_err(|error| tell(rt, name, &not_saved(error)))?;
    file::replace(rt, name, bytes::first(&room, length))
}

// Opens a tape, or standard input where none is named.
fn open(rt: HostRuntime, tape: Option<usize>) -> Result<Source, Stop> {
    match tape {
        Some(place) => Source::open(rt, place),
        None => Ok(Source::Input(rt.stdin())),
    }
}

// Tells that a file stays as it was, unless nobody reads the answers any more.
fn tell_unsaved(rt: HostRuntime, name: &[u8], stop: Stop) -> Stop {
    if !matches!(stop, Stop::Unread) {
        tell(rt, name, &Reason::TapeBroken);
    }
    stop
}

// Answers a tape, and saves the chip that it leaves, once it is seen that this can be done. Where the tape was not answered to its end, the file stays as
// it was, and the tape can be answered again from what it began with.
fn run_saved(rt: HostRuntime, chip: Chip, tape: Option<usize>, place: usize) -> Result<(), Stop> {
    let file = argument::named(rt, place)?;
    let name = file.as_slice();
    file::check(rt, name)?;
    let mut source = open(rt, tape).map_err(|stop| tell_unsaved(rt, name, stop))?;
    let (left, ran) = one_tape::run_tape(rt, &mut source, chip);
    ran.map_err(|stop| tell_unsaved(rt, name, stop))?;
    save(rt, name, &left)
}

// Answers one tape, whose chip is loaded, or saved, or both.
pub(crate) fn run_kept(rt: HostRuntime, kept: Kept) -> Result<(), Stop> {
    let chip = match kept.load {
        Some(place) => load(rt, place)?,
        None => Chip::new(),
    };
    match kept.save {
        Some(place) => run_saved(rt, chip, kept.tape, place),
        None => one_tape::run(rt, open(rt, kept.tape)?, chip),
    }
}
