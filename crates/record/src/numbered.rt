// The numbers of the cases of lock, act, stage and target, and the cases of numbers.
ghost use Rattle.std.specs.Prelude.{◌≡◌};
ghost use Rattle.record.specs.Numbers.{lock_number, lock_of, act_number, place_kind, place_value, place_of, pair_kind, pair_value, pair_of, long_kind, long_of, target_kind, target_value, target_of};
ghost use Rattle.record.specs.Numbered.{stage_numbered, stage_from};

use crate::{
    Act, ClockAddress, Code, EepromAddress, IdAddress, Lock, Long, Pair, Pin, Place, Protection,
    Stage, Target,
};

// A stage by its kind, by which of its cases it is, and by what that case carries.
#[derive(Clone, Copy, PartialEq, Eq)]
pub struct Numbered {
    pub kind: u8,
    pub which: u8,
    pub value: u8,
}

// The steps of UNLOCK taken.
impl From<Lock> for u8 {
    ghost from_gives = { λ lock n. n ≡ lock_number lock };

    fn from(lock: Lock) -> u8 {
        match lock {
            Lock::Closed => 0,
            Lock::First => 1,
            Lock::Open => 2,
        }
    }
}

impl From<u8> for Lock {
    ghost from_gives = { λ n lock. lock ≡ lock_of n };

    fn from(n: u8) -> Lock {
        match n {
            0 => Lock::Closed,
            1 => Lock::First,
            _ => Lock::Open,
        }
    }
}

impl From<Act> for u8 {
    ghost from_gives = { λ act n. n ≡ act_number act };

    fn from(act: Act) -> u8 {
        match act {
            Act::Select => 0,
            Act::Byte => 1,
            Act::End => 2,
            Act::Wait => 3,
            Act::Cut => 4,
            Act::Up => 5,
            Act::Set(Pin::Evls) => 6,
            Act::Set(Pin::Evhs) => 7,
        }
    }
}

// A place by its memory, and its address.
fn place_numbers(place: Place) -> (u8, u8)
    ensures { result ≡ (place_kind place, place_value place) }
{
    match place {
        Place::EepromAt(a) => (0, a.0),
        Place::ClockAt(a) => (1, a.0),
        Place::IdAt(a) => (2, a.0),
    }
}

fn place_of(kind: u8, value: u8) -> Place
    ensures { result ≡ place_of kind value }
{
    match kind {
        0 => Place::EepromAt(EepromAddress(value)),
        1 => Place::ClockAt(ClockAddress(value)),
        _ => Place::IdAt(IdAddress(value)),
    }
}

// What a second byte brought, by its code, and the byte, 0 where it does not matter.
fn pair_numbers(pair: Pair) -> (u8, u8)
    ensures { result ≡ (pair_kind pair, pair_value pair) }
{
    match pair {
        Pair::StatusData(v) => (0, v),
        Pair::UnlockData(v) => (1, v),
        Pair::ClearWatchdog => (2, 0),
        Pair::ClearRam => (3, 0),
    }
}

fn pair_of(kind: u8, value: u8) -> Pair
    ensures { result ≡ pair_of kind value }
{
    match kind {
        0 => Pair::StatusData(value),
        1 => Pair::UnlockData(value),
        2 => Pair::ClearWatchdog,
        _ => Pair::ClearRam,
    }
}

// A code with a byte too many.
fn long_kind(long: Long) -> u8
    ensures { result ≡ long_kind long }
{
    match long {
        Long::StatusOver => 0,
        Long::UnlockOver => 1,
        Long::WatchdogOver => 2,
        Long::RamOver => 3,
        Long::EnableOver => 4,
        Long::DisableOver => 5,
    }
}

fn long_of(kind: u8) -> Long
    ensures { result ≡ long_of kind }
{
    match kind {
        0 => Long::StatusOver,
        1 => Long::UnlockOver,
        2 => Long::WatchdogOver,
        3 => Long::RamOver,
        4 => Long::EnableOver,
        _ => Long::DisableOver,
    }
}

impl From<Stage> for Numbered {
    ghost from_gives = { λ stage n. n ≡ stage_numbered stage };

    fn from(stage: Stage) -> Numbered {
        let (kind, (which, value)) = match stage {
            Stage::Idle => (0, (0, 0)),
            Stage::Opened => (1, (0, 0)),
            Stage::Unheard => (2, (0, 0)),
            Stage::Instruction(c) => (3, (u8::from(c), 0)),
            Stage::Reading(p) => (4, place_numbers(p)),
            Stage::Writing(p) => (5, place_numbers(p)),
            Stage::Second(q) => (6, pair_numbers(q)),
            Stage::Over(l) => (7, (long_kind(l), 0)),
        };
        Numbered { kind, which, value }
    }
}

impl From<Numbered> for Stage {
    ghost from_gives = { λ n stage. stage ≡ stage_from n };

    fn from(n: Numbered) -> Stage {
        match n.kind {
            0 => Stage::Idle,
            1 => Stage::Opened,
            2 => Stage::Unheard,
            3 => Stage::Instruction(Code::from(n.which)),
            4 => Stage::Reading(place_of(n.which, n.value)),
            5 => Stage::Writing(place_of(n.which, n.value)),
            6 => Stage::Second(pair_of(n.which, n.value)),
            _ => Stage::Over(long_of(n.which)),
        }
    }
}

// A target by its kind and its value.
impl From<Target> for (u8, u8) {
    ghost from_gives = { λ target n. n ≡ (target_kind target, target_value target) };

    fn from(target: Target) -> (u8, u8) {
        match target {
            Target::Eeprom(a) => (0, a.0),
            Target::Id(a) => (1, a.0),
            Target::Status(p) => (2, u8::from(p)),
        }
    }
}

impl From<(u8, u8)> for Target {
    ghost from_gives = { λ n target. target ≡ target_of n.0 n.1 };

    fn from(n: (u8, u8)) -> Target {
        let (kind, value) = n;
        match kind {
            0 => Target::Eeprom(EepromAddress(value)),
            1 => Target::Id(IdAddress(value)),
            _ => Target::Status(Protection::from(value)),
        }
    }
}
