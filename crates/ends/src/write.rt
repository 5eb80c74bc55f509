// Which write is carried into its cycle at the end of a frame, what the cycle writes, and how WEL moves.
ghost use Rattle.std.specs.Prelude.{◌≡◌, ◌+◌};
ghost use Rattle.ends.specs.Write.{first_protected, page_protected, data_came, allowed, carried, target_at, cycle_after, latches, wel_after};

use record::registers::CYCLE_TICKS;
use record::{
    Code, Cycle, Device, EepromAddress, Guard, Load, Lock, Pair, Place, Protection, Stage, Target,
};

// The first protected address: the upper quarter, the upper half, or all of the EEPROM.
fn first_protected(top: EepromAddress, p: Protection) -> u16
    ensures { result ≡ first_protected (top.0 + 1) p }
{
    let size = u16::from(top.0) + 1;
    match p {
        Protection::Nothing => size,
        Protection::Quarter => size / 4 * 3,
        Protection::Half => size / 2,
        Protection::All => 0,
    }
}

fn page_protected(top: EepromAddress, p: Protection, a: EepromAddress) -> bool
    ensures { result ≡ page_protected (top.0 + 1) p a.0 }
{
    usize::from(first_protected(top, p)) <= a.page()
}

// A data byte of a write came.
fn data_came(load: Load, stage: Stage) -> bool
    ensures { result ≡ data_came load stage }
{
    let code = stage.code();
    let status = code == Code::Srwrite;
    ((code.writes_page() | status) & !stage.at_instruction()) & (status | (load.offsets != 0))
}

// What guards each write: the page's protection, the lock.
fn is_allowed(top: EepromAddress, g: Guard, stage: Stage) -> bool
    ensures { result ≡ allowed top.0 g stage }
{
    match stage.code() {
        Code::Eewrite => {
            let at = EepromAddress(stage.place().eeprom_pointer());
            !page_protected(top, g.protection, at)
        }
        Code::Idwrite => g.lock == Lock::Open,
        _ => true,
    }
}

// A write is carried into its cycle.
#[tactic(auto, unfolding(crate::specs::Write::carried))]
fn is_carried(top: EepromAddress, k: u8, d: Device) -> bool
    ensures { result ≡ carried top.0 k d }
{
    let stage = d.frame.stage;
    let came = data_came(d.load, stage);
    let over = stage.is_over();
    let ok = is_allowed(top, d.guard, stage);
    ((d.guard.wel & (came & !over)) & (k == 0)) & ok
}

// What a carried write's cycle writes.
fn target_at(target: Target, stage: Stage) -> Target
    ensures { result ≡ target_at target stage }
{
    match stage {
        Stage::Writing(Place::EepromAt(a)) => Target::Eeprom(a),
        Stage::Writing(Place::IdAt(a)) => Target::Id(a),
        Stage::Second(Pair::StatusData(v)) => Target::Status(Protection::from(v / 4 % 4)),
        _ => target,
    }
}

// The cycle after an end.
#[tactic(auto, unfolding(crate::specs::Write::cycle_after))]
pub fn cycle_after(top: EepromAddress, k: u8, d: Device) -> Cycle
    ensures { result ≡ cycle_after top.0 k d }
{
    if is_carried(top, k, d) {
        Cycle {
            target: target_at(d.cycle.target, d.frame.stage),
            left: CYCLE_TICKS,
        }
    } else {
        d.cycle
    }
}

// A code that acts on the latch does so.
// Kept beside `cleared_by`: two rules, F19 and F20.
fn latched_by(code: Code, k: u8, stage: Stage) -> bool
    ensures { result ≡ latches code k stage }
{
    ((stage.code() == code) & stage.at_instruction()) & (k == 0)
}

// How WEL moves.
#[tactic(auto, unfolding(crate::specs::Write::wel_after))]
pub fn wel_after(k: u8, wel: bool, stage: Stage) -> bool
    ensures { result ≡ wel_after k wel stage }
{
    let set = latched_by(Code::Eewren, k, stage);
    let cleared = latched_by(Code::Eewrdi, k, stage);
    set | (wel & !cleared)
}
