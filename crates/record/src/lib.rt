#![tactic(auto)]

// The chip's record: what a chip is between two acts. The registers and the SRAM are held in it by value; the two
// memories, EEPROM and ID, are lent to each act and are no part of it.
ghost use Rattle.std.specs.Prelude.{◌≡◌};
ghost use Rattle.record.specs.Fresh.{fresh_regs, fresh_counters, fresh};

use events::Events;
use registers::{DATE, DAY, MONTH};

pub mod address; // address.rt: how an address is taken and rolls over
pub mod codes; // codes.rt: instruction codes
pub mod inputs; // inputs.rt: the event inputs with the byte of 0Bh
pub mod number; // number.rt: the numbers of the enums' cases
pub mod numbered; // numbered.rt: the numbers of lock, act, stage and target, and back
pub mod part; // part.rt: the four parts
pub mod registers; // registers.rt: the registers' addresses and masks, the limits
pub mod stages; // stages.rt: what a stage and a cycle's target tell
pub mod stamps; // stamps.rt: the time-stamps of a power failure

// An address of the EEPROM.
#[derive(Clone, Copy)]
pub struct EepromAddress(pub u8);

// An address of the clock block, registers 00h to 1Fh and SRAM 20h to 5Fh; from 60h up there is nothing.
#[derive(Clone, Copy)]
pub struct ClockAddress(pub u8);

// An address of the ID bytes.
#[derive(Clone, Copy)]
pub struct IdAddress(pub u8);

// The instruction codes, by the sheet's names, and any other code.
#[derive(Clone, Copy, PartialEq, Eq)]
pub enum Code {
    Eeread,
    Eewrite,
    Eewrdi,
    Eewren,
    Srread,
    Srwrite,
    Read,
    Write,
    Unlock,
    Idwrite,
    Idread,
    Clrwdt,
    Clrram,
    Other,
}

// Where the pointer of a frame stands, by the memory that it is for.
#[derive(Clone, Copy)]
pub enum Place {
    EepromAt(EepromAddress),
    ClockAt(ClockAddress),
    IdAt(IdAddress),
}

// What the second byte of a code that takes no address brought.
#[derive(Clone, Copy)]
pub enum Pair {
    // SRWRITE: the STATUS byte
    StatusData(u8),
    // UNLOCK: the step
    UnlockData(u8),
    // CLRWDT: nothing
    ClearWatchdog,
    // CLRRAM: nothing
    ClearRam,
}

// A code with a byte more than it takes.
#[derive(Clone, Copy)]
pub enum Long {
    // SRWRITE with a second data byte
    StatusOver,
    // UNLOCK with a third byte
    UnlockOver,
    // CLRWDT with a third byte
    WatchdogOver,
    // CLRRAM with a third byte
    RamOver,
    // EEWREN with a second byte
    EnableOver,
    // EEWRDI with a second byte
    DisableOver,
}

// How far a frame has come.
#[derive(Clone, Copy)]
pub enum Stage {
    // not selected
    Idle,
    // selected, and no whole byte came
    Opened,
    // the first byte came and is not heard; nor are those after it
    Unheard,
    // a heard code; SRREAD and a code of none stay here however many bytes follow
    Instruction(Code),
    // EEREAD, READ or IDREAD with its address: the next byte is answered from this place
    Reading(Place),
    // EEWRITE, WRITE or IDWRITE with its address: the next byte is data for this place
    Writing(Place),
    // the second byte of SRWRITE, UNLOCK, CLRWDT or CLRRAM
    Second(Pair),
    // more bytes than the code takes
    Over(Long),
}

// What BP1 and BP0 protect.
#[derive(Clone, Copy)]
pub enum Protection {
    Nothing,
    Quarter,
    Half,
    All,
}

// The lock of the ID bytes: First is UNLOCK 55h taken, and AAh not yet.
#[derive(Clone, Copy, PartialEq, Eq)]
pub enum Lock {
    Closed,
    First,
    Open,
}

// What a write cycle writes, and where: the page of an address, or the protection bits.
#[derive(Clone, Copy)]
pub enum Target {
    Eeprom(EepromAddress),
    Id(IdAddress),
    Status(Protection),
}

// The frame.
#[derive(Clone, Copy)]
pub struct Frame {
    pub stage: Stage,
}

// The page load: the set of loaded offsets, their bytes, and the offset of the next byte.
#[derive(Clone, Copy)]
pub struct Load {
    pub offsets: u8,
    pub bytes: [u8; 8],
    pub next: u8,
}

// The write cycle; with 0 ticks left there is none.
// No `Option`: the target stays when the cycle is over, and the saved form has both always.
#[derive(Clone, Copy)]
pub struct Cycle {
    pub target: Target,
    pub left: u8,
}

// The write enable latch, the protection and the lock.
#[derive(Clone, Copy)]
pub struct Guard {
    pub wel: bool,
    pub protection: Protection,
    pub lock: Lock,
}

// The counts that ticks move.
#[derive(Clone, Copy)]
pub struct Counters {
    pub divider: u16,
    pub startup: u8,
    pub watchdog: u32,
    pub delay: u32,
    pub pulse: u16,
}

#[derive(Clone, Copy)]
pub struct Device {
    pub regs: [u8; 32],
    pub sram: [u8; 64],
    pub counters: Counters,
    pub power: bool,
    // set by a cut that took a time-stamp, until power is up again
    pub mark: bool,
    pub guard: Guard,
    pub frame: Frame,
    pub load: Load,
    pub cycle: Cycle,
    pub events: Events,
}

// The event inputs' pins.
#[derive(Clone, Copy)]
pub enum Pin {
    Evls,
    Evhs,
}

// The acts: six, and the level of a pin set.
#[derive(Clone, Copy)]
pub enum Act {
    Select,
    Byte,
    End,
    Wait,
    Cut,
    Up,
    Set(Pin),
}

// The registers of a fresh chip: 0, but day, date and month 01h.
pub fn fresh_regs() -> [u8; 32]
    ensures { result ≡ fresh_regs }
{
    let mut regs = [0u8; 32];
    regs[DAY] = 1;
    regs[DATE] = 1;
    regs[MONTH] = 1;
    regs
}

// Its counts, all 0.
pub fn fresh_counters() -> Counters
    ensures { result ≡ fresh_counters }
{
    Counters {
        divider: 0,
        startup: 0,
        watchdog: 0,
        delay: 0,
        pulse: 0,
    }
}

// A fresh chip, the same for every part.
#[tactic(auto, unfolding(crate::specs::Fresh::fresh))]
pub fn fresh_device() -> Device
    ensures { result ≡ fresh }
{
    let regs = fresh_regs();
    let counters = fresh_counters();
    Device {
        regs,
        sram: [0u8; 64],
        counters,
        power: true,
        mark: false,
        guard: Guard {
            wel: false,
            protection: Protection::Nothing,
            lock: Lock::Closed,
        },
        frame: Frame { stage: Stage::Idle },
        load: Load {
            offsets: 0,
            bytes: [0u8; 8],
            next: 0,
        },
        cycle: Cycle {
            target: Target::Eeprom(EepromAddress(0)),
            left: 0,
        },
        events: Events {
            door: 0,
            drum: 0,
            edges: 0,
            since: 0,
            debounce: 0,
        },
    }
}
