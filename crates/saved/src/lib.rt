#![tactic(auto)]

// A chip saved as text, and loaded from it.
ghost use Rattle.std.specs.Prelude.{◌≡◌, ℕ};
ghost use Rattle.record.specs.declared.Device.{Device};
ghost use Rattle.record.specs.World.{world};
ghost use Rattle.form.specs.Save.{saves, loads};
ghost use Rattle.saved.specs.declared.SaveError.TheVariants.{Refused};
ghost use Rattle.saved.specs.Answer.{save_number, saving_of, load_number, loading_of};

use numbers::{chip, table};
use record::Device;
use refusals::Refusal;
use text::{buffer, bytes};

mod key; // key.rt: the beginning of a line
mod put; // put.rt: a list of numbers as text
mod read; // read.rt: a text read by the table
mod scan; // scan.rt: a text read from left to right

// Room for the longest text.
const TEXT_ROOM: usize = 8000;

// A place in a text, and the good lines before it.
// The text stays a parameter beside it: with both in one struct each function would have to promise that the text in its answer is the one it was given.
#[derive(Clone, Copy)]
pub struct Place {
    pub at: usize,
    pub lines: usize,
}

// A line is bad: how far it was read.
#[derive(Clone, Copy)]
pub struct Bad {
    pub place: Place,
}

// Why a chip is not saved.
#[derive(Clone, Copy, Debug, PartialEq, Eq)]
pub enum SaveError {
    // part, memories or record, as an act is refused
    Refused(Refusal),
    // too little room
    NoRoom,
}

impl From<Refusal> for SaveError {
    ghost from_gives = { λ refusal e. e ≡ Refused refusal };

    fn from(refusal: Refusal) -> SaveError {
        SaveError::Refused(refusal)
    }
}

// The number of an error, as the definitions have it.
impl From<SaveError> for u8 {
    ghost from_gives = { λ e n. n ≡ save_number e };

    fn from(error: SaveError) -> u8 {
        match error {
            SaveError::Refused(why) => u8::from(why),
            SaveError::NoRoom => 8,
        }
    }
}

// What a text holds: the chip's part and record.
#[derive(Clone, Copy)]
pub struct Loaded {
    pub part: u64,
    pub device: Device,
}

// Why a text is not loaded.
#[derive(Clone, Copy, Debug, PartialEq, Eq)]
pub enum LoadError {
    // its first bad line, from 1
    BadLine(usize),
    // the lent memories have not the lengths of the text's part
    WrongLength,
}

impl From<LoadError> for u8 {
    ghost from_gives = { λ e n. n ≡ load_number e };

    fn from(error: LoadError) -> u8 {
        match error {
            LoadError::BadLine(_) => 8,
            LoadError::WrongLength => 4,
        }
    }
}

// Puts the text of a chip into the room lent, and answers how many bytes it has. Refused as an act is, then where there is too little room; then nothing is
// written.
pub fn save(
    part: u64,
    device: Device,
    eeprom: &[u8],
    id: &[u8],
    into: &mut [u8],
) -> Result<usize, SaveError>
    ensures { saving_of result into.new ≡ saves part (world device eeprom.now id.now) into.old }
{
    refusals::setup_refusal(part, device, eeprom.len(), id.len())?;
    let mut numbers = [0u64; table::NUMBERS];
    let count = chip::numbers_of(part, device, eeprom, id, &mut numbers);
    let mut text = [0u8; TEXT_ROOM];
    let length = put::put_rows(bytes::first(&numbers, count), &mut text);
    if into.len() < length {
        return Err(SaveError::NoRoom);
    }
    buffer::put(bytes::first(&text, length), into, 0);
    Ok(length)
}

// Takes part, record and memories from a text. Refused with the first bad line, then where the lent memories have not the lengths of the text's part; then
// the memories are as they were, and so is whatever part and record stood beside them.
pub fn load(text: &[u8], eeprom: &mut [u8], id: &mut [u8]) -> Result<Loaded, LoadError>
    ensures { (part : ℕ) (device : Device) → loading_of result part (world device eeprom.new id.new) ≡ loads text.now part (world device eeprom.old id.old) }
{
    let mut numbers = [0u64; table::NUMBERS];
    let read = match read::read_rows(text, &mut numbers) {
        Ok(read) => read,
        Err(bad) => return Err(LoadError::BadLine(bad.place.lines + 1)),
    };
    let place = read.place;
    if place.at < text.len() {
        return Err(LoadError::BadLine(place.lines + 1));
    }
    let list = bytes::first(&numbers, read.count);
    let part = list[0];
    if refusals::wrong_length(part, eeprom.len(), id.len()) {
        return Err(LoadError::WrongLength);
    }
    chip::take_bytes(list, 123, eeprom);
    chip::take_bytes(list, 123 + eeprom.len(), id);
    let from = table::events_from(part);
    let device = chip::device_of(list, from);
    Ok(Loaded { part, device })
}
