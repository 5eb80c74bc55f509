// Select, and a byte of a frame: where it takes the frame, and what it does.
ghost use Rattle.std.specs.Prelude.{◌≡◌};
ghost use Rattle.frames.specs.Frame.{first_stage, second_stage, read_on, written_on, third_byte, stage_after, emptied, loaded_with, load_after, written_at, after_byte, after_select};

use record::{
    ClockAddress, Code, Device, EepromAddress, Frame, IdAddress, Load, Long, Pair, Place, Stage,
};

// The instruction byte.
fn first_stage(busy: bool, code: Code) -> Stage
    ensures { result ≡ first_stage busy code }
{
    if busy & !code.heard_under_wip() {
        Stage::Unheard
    } else {
        Stage::Instruction(code)
    }
}

// The second byte of a heard frame.
fn second_stage(top: EepromAddress, v: u8, code: Code) -> Stage
    ensures { result ≡ second_stage top.0 v code }
{
    match code {
        Code::Eeread => Stage::Reading(Place::EepromAt(EepromAddress::taken(v, top))),
        Code::Eewrite => Stage::Writing(Place::EepromAt(EepromAddress::taken(v, top))),
        Code::Eewrdi => Stage::Over(Long::DisableOver),
        Code::Eewren => Stage::Over(Long::EnableOver),
        Code::Srread => Stage::Instruction(Code::Srread),
        Code::Srwrite => Stage::Second(Pair::StatusData(v)),
        Code::Read => Stage::Reading(Place::ClockAt(ClockAddress(v))),
        Code::Write => Stage::Writing(Place::ClockAt(ClockAddress(v))),
        Code::Unlock => Stage::Second(Pair::UnlockData(v)),
        Code::Idwrite => Stage::Writing(Place::IdAt(IdAddress::taken(v))),
        Code::Idread => Stage::Reading(Place::IdAt(IdAddress::taken(v))),
        Code::Clrwdt => Stage::Second(Pair::ClearWatchdog),
        Code::Clrram => Stage::Second(Pair::ClearRam),
        Code::Other => Stage::Instruction(Code::Other),
    }
}

// Where a byte takes the pointer of a read.
fn read_on(top: EepromAddress, place: Place) -> Place
    ensures { result ≡ read_on top.0 place }
{
    match place {
        Place::EepromAt(a) => Place::EepromAt(a.next(top)),
        Place::ClockAt(a) => Place::ClockAt(a.next()),
        Place::IdAt(a) => Place::IdAt(a.next()),
    }
}

// Of a write: the page stays, and its offset moves in the load.
fn written_on(place: Place) -> Place
    ensures { result ≡ written_on place }
{
    match place {
        Place::ClockAt(a) => Place::ClockAt(a.next()),
        Place::EepromAt(_) | Place::IdAt(_) => place,
    }
}

fn third_byte(pair: Pair) -> Long
    ensures { result ≡ third_byte pair }
{
    match pair {
        Pair::StatusData(_) => Long::StatusOver,
        Pair::UnlockData(_) => Long::UnlockOver,
        Pair::ClearWatchdog => Long::WatchdogOver,
        Pair::ClearRam => Long::RamOver,
    }
}

// Where a byte takes the frame.
fn stage_after(top: EepromAddress, busy: bool, v: u8, stage: Stage) -> Stage
    ensures { result ≡ stage_after top.0 busy v stage }
{
    match stage {
        Stage::Idle | Stage::Unheard | Stage::Over(_) => stage,
        Stage::Opened => first_stage(busy, Code::from(v)),
        Stage::Instruction(c) => second_stage(top, v, c),
        Stage::Reading(p) => Stage::Reading(read_on(top, p)),
        Stage::Writing(p) => Stage::Writing(written_on(p)),
        Stage::Second(q) => Stage::Over(third_byte(q)),
    }
}

// The address byte of a page write empties the load and sets the next offset.
fn emptied_load(load: Load, v: u8) -> Load
    ensures { result ≡ emptied load v }
{
    Load {
        offsets: 0,
        next: v % 8,
        ..load
    }
}

// A data byte of a page write: it rolls inside the page, and a later one replaces an earlier.
fn loaded_with(load: Load, v: u8) -> Load
    ensures { result ≡ loaded_with load v }
{
    let k = load.next % 8;
    let mut bytes = load.bytes;
    bytes[usize::from(k)] = v;
    Load {
        offsets: load.offsets | (1 << k),
        bytes,
        next: (k + 1) % 8,
    }
}

fn load_after(load: Load, v: u8, stage: Stage) -> Load
    ensures { result ≡ load_after load v stage }
{
    match stage {
        Stage::Instruction(c) if c.writes_page() => emptied_load(load, v),
        Stage::Writing(Place::EepromAt(_) | Place::IdAt(_)) => loaded_with(load, v),
        _ => load,
    }
}

// WRITE stores each byte as it comes.
// Two functions hand on what the part tells, the record and the byte; a struct would be made for that alone.
fn written_at(boots: bool, d: Device, v: u8, stage: Stage) -> Device
    ensures { result ≡ written_at boots d v stage }
{
    match stage {
        Stage::Writing(Place::ClockAt(a)) => registers::write::write_clock(boots, d, a, v),
        _ => d,
    }
}

// The device after a whole byte.
#[tactic(auto, unfolding(crate::specs::Frame::after_byte))]
pub fn after_byte(boots: bool, top: EepromAddress, v: u8, d: Device) -> Device
    ensures { result ≡ after_byte boots top.0 v d }
{
    let stage = d.frame.stage;
    let busy = ticks::lines::in_progress(d);
    let moved = stage_after(top, busy, v, stage);
    let load = load_after(d.load, v, stage);
    Device {
        frame: Frame { stage: moved },
        load,
        ..written_at(boots, d, v, stage)
    }
}

// Select opens a frame.
#[tactic(auto, unfolding(crate::specs::Frame::after_select))]
pub fn after_select(d: Device) -> Device
    ensures { result ≡ after_select d }
{
    Device {
        frame: Frame {
            stage: Stage::Opened,
        },
        ..d
    }
}
