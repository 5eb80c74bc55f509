// What a stage of the frame tells, and where the pointers of a frame and of a cycle stand.
ghost use Rattle.std.specs.Prelude.{◌≡◌};
ghost use Rattle.record.specs.Stages.{selected, heard, reading_code, writing_code, second_code, over_code, code_at, at_instruction, is_over, foreign_to_wip, frame_place, cycle_place, id_pointer, eeprom_pointer};

use crate::{ClockAddress, Code, Long, Pair, Place, Stage, Target};

// Where there is no pointer: clock address 00h, which is never judged.
// No `Option`: callers ask for one memory's pointer, and 0 passes every limit; `frame_place` has it so.
const NO_PLACE: Place = Place::ClockAt(ClockAddress(0));

impl Stage {
    // A frame is open.
    pub fn is_selected(self) -> bool
        ensures { result ≡ selected self }
    {
        !matches!(self, Stage::Idle)
    }

    // A frame is open whose first byte came and is heard.
    pub fn is_heard(self) -> bool
        ensures { result ≡ heard self }
    {
        !matches!(self, Stage::Idle | Stage::Opened | Stage::Unheard)
    }

    // The code of a heard frame; Other where none is heard.
    pub fn code(self) -> Code
        ensures { result ≡ code_at self }
    {
        match self {
            Stage::Instruction(c) => c,
            Stage::Reading(p) => p.reading_code(),
            Stage::Writing(p) => p.writing_code(),
            Stage::Second(q) => q.code(),
            Stage::Over(l) => l.code(),
            _ => Code::Other,
        }
    }

    // A heard frame is at its instruction byte.
    pub fn at_instruction(self) -> bool
        ensures { result ≡ at_instruction self }
    {
        matches!(self, Stage::Instruction(_))
    }

    // More bytes came than the code takes.
    pub fn is_over(self) -> bool
        ensures { result ≡ is_over self }
    {
        matches!(self, Stage::Over(_))
    }

    // A heard frame is open whose code is not heard while a write cycle runs.
    pub fn foreign_to_wip(self) -> bool
        ensures { result ≡ foreign_to_wip self }
    {
        self.is_heard() & !self.code().heard_under_wip()
    }

    // Where the frame's pointer stands.
    pub fn place(self) -> Place
        ensures { result ≡ frame_place self }
    {
        match self {
            Stage::Reading(p) | Stage::Writing(p) => p,
            _ => NO_PLACE,
        }
    }
}

impl Pair {
    fn code(self) -> Code
        ensures { result ≡ second_code self }
    {
        match self {
            Pair::StatusData(_) => Code::Srwrite,
            Pair::UnlockData(_) => Code::Unlock,
            Pair::ClearWatchdog => Code::Clrwdt,
            Pair::ClearRam => Code::Clrram,
        }
    }
}

impl Long {
    fn code(self) -> Code
        ensures { result ≡ over_code self }
    {
        match self {
            Long::StatusOver => Code::Srwrite,
            Long::UnlockOver => Code::Unlock,
            Long::WatchdogOver => Code::Clrwdt,
            Long::RamOver => Code::Clrram,
            Long::EnableOver => Code::Eewren,
            Long::DisableOver => Code::Eewrdi,
        }
    }
}

impl Target {
    // Where the pointer of a cycle stands.
    pub fn place(self) -> Place
        ensures { result ≡ cycle_place self }
    {
        match self {
            Target::Eeprom(a) => Place::EepromAt(a),
            Target::Id(a) => Place::IdAt(a),
            Target::Status(_) => NO_PLACE,
        }
    }
}

impl Place {
    // Kept beside `writing_code`: each arm of the two is a row of the sheet's table, and no constant makes one of the other.
    fn reading_code(self) -> Code
        ensures { result ≡ reading_code self }
    {
        match self {
            Place::EepromAt(_) => Code::Eeread,
            Place::ClockAt(_) => Code::Read,
            Place::IdAt(_) => Code::Idread,
        }
    }

    fn writing_code(self) -> Code
        ensures { result ≡ writing_code self }
    {
        match self {
            Place::EepromAt(_) => Code::Eewrite,
            Place::ClockAt(_) => Code::Write,
            Place::IdAt(_) => Code::Idwrite,
        }
    }

    // Its ID pointer; 0 where it is of another memory.
    pub fn id_pointer(self) -> u8
        ensures { result ≡ id_pointer self }
    {
        if let Place::IdAt(a) = self { a.0 } else { 0 }
    }

    // Its EEPROM pointer; 0 where it is of another memory. Two methods: which variant is asked for is no parameter.
    pub fn eeprom_pointer(self) -> u8
        ensures { result ≡ eeprom_pointer self }
    {
        if let Place::EepromAt(a) = self {
            a.0
        } else {
            0
        }
    }
}
