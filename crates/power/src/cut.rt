// Power cut and power up, of the record.
ghost use Rattle.std.specs.Prelude.{◌≡◌};
ghost use Rattle.base.specs.Words.{members};
ghost use Rattle.record.specs.Stored.{stored_set, stored_count};
ghost use Rattle.power.specs.Power.{watchdog_cut, takes_stamp, failure_stamped, forgotten, clock_cut, protection_cut, after_cut, cut_count, return_stamped, after_up};

use record::registers::{DAY, POWER_DOWN, POWER_UP, VBAT, WATCHDOG, WDTEN};
use record::{
    Counters, Cycle, Device, Frame, Guard, Load, Lock, Protection, Stage, Target, registers, stamps,
};

// A cut takes its time-stamp where the battery takes over and no earlier failure is held.
fn takes_stamp(regs: [u8; 32]) -> bool
    ensures { result ≡ takes_stamp regs }
{
    registers::battery_enabled(regs) & !registers::vbat_set(regs)
}

// Then the time of the failure, and VBAT.
fn failure_stamped(regs: [u8; 32]) -> [u8; 32]
    ensures { result ≡ failure_stamped regs }
{
    if !takes_stamp(regs) {
        return regs;
    }
    let mut next = stamps::stamped_at(POWER_DOWN, regs);
    next[DAY] |= VBAT;
    next
}

// On the battery: the watchdog is stopped.
fn watchdog_cut(d: Device) -> Device
    ensures { result ≡ watchdog_cut d }
{
    let mut regs = d.regs;
    regs[WATCHDOG] %= WDTEN;
    Device {
        regs,
        counters: Counters {
            watchdog: 0,
            delay: 0,
            pulse: 0,
            ..d.counters
        },
        ..d
    }
}

// Without it: registers, SRAM and counts are as fresh. The levels of the event inputs stay.
fn forgotten_clock(d: Device) -> Device
    ensures { result ≡ forgotten d }
{
    Device {
        regs: record::fresh_regs(),
        sram: [0u8; 64],
        counters: record::fresh_counters(),
        events: detect::pins::no_counts(d.events),
        ..d
    }
}

fn clock_cut(d: Device) -> Device
    ensures { result ≡ clock_cut d }
{
    if registers::battery_enabled(d.regs) {
        watchdog_cut(Device {
            regs: failure_stamped(d.regs),
            ..d
        })
    } else {
        forgotten_clock(d)
    }
}

// The protection stays, but for a STATUS cycle that the mask let through.
fn protection_cut(mask: u8, d: Device) -> Protection
    ensures { result ≡ protection_cut mask d }
{
    if d.cycle.left == 0 {
        d.guard.protection
    } else {
        ticks::tick::protection_after(mask, d.guard.protection, d.cycle.target)
    }
}

// The device after a cut.
#[tactic(auto, unfolding(crate::specs::Power::after_cut))]
pub fn after_cut(mask: u8, d: Device) -> Device
    ensures { result ≡ after_cut mask d }
{
    clock_cut(Device {
        power: false,
        mark: takes_stamp(d.regs),
        guard: Guard {
            wel: false, // P6
            protection: protection_cut(mask, d),
            lock: Lock::Closed,
        },
        frame: Frame { stage: Stage::Idle },
        cycle: Cycle { left: 0, ..d.cycle },
        ..d
    })
}

// How many loaded offsets are in the mask.
fn stored_ones(load: Load, mask: u8) -> u8
    ensures { result ≡ members (stored_set load mask) 8 }
{
    (load.offsets & mask).count_ones() as u8
}

fn stored_count(load: Load, mask: u8, target: Target) -> u8
    ensures { result ≡ stored_count load mask target }
{
    match target {
        Target::Eeprom(_) | Target::Id(_) => stored_ones(load, mask),
        Target::Status(_) => mask % 2,
    }
}

// How many bytes a cut stores: the loaded offsets under the mask.
#[tactic(auto, unfolding(crate::specs::Power::cut_count))]
pub fn cut_count(mask: u8, d: Device) -> u8
    ensures { result ≡ cut_count mask d }
{
    if d.cycle.left == 0 {
        0
    } else {
        stored_count(d.load, mask, d.cycle.target)
    }
}

// Where the mark tells so, the time of the return.
fn return_stamped(mark: bool, regs: [u8; 32]) -> [u8; 32]
    ensures { result ≡ return_stamped mark regs }
{
    if mark {
        stamps::stamped_at(POWER_UP, regs)
    } else {
        regs
    }
}

#[tactic(auto, unfolding(crate::specs::Power::after_up))]
pub fn after_up(d: Device) -> Device
    ensures { result ≡ after_up d }
{
    Device {
        regs: return_stamped(d.mark, d.regs),
        guard: Guard {
            wel: false, // P18
            ..d.guard
        },
        power: true,
        mark: false,
        ..d
    }
}
