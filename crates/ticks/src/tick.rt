// One tick of the record.
ghost use Rattle.std.specs.Prelude.{◌≡◌};
ghost use Rattle.record.specs.Stored.{protection_after};
ghost use Rattle.ticks.specs.Tick.{cycle_ended, cycle_device, clockwork, alive};
ghost use Rattle.ticks.specs.RecordTick.{device_tick};

use record::{Device, Protection, Target};

// The mask of a cycle that comes to its end: every bit set.
pub const WHOLE: u8 = 255;

// The protection that a cycle leaves: a STATUS cycle goes by bit 0 of the mask.
pub fn protection_after(mask: u8, old: Protection, target: Target) -> Protection
    ensures { result ≡ protection_after mask old target }
{
    match target {
        Target::Status(p) if mask % 2 == 1 => p,
        _ => old,
    }
}

// The cycle's last tick: WEL clears, and a STATUS cycle changes the protection.
fn cycle_ended(d: Device) -> Device
    ensures { result ≡ cycle_ended d }
{
    let mut next = d;
    next.guard.wel = false;
    next.guard.protection = protection_after(WHOLE, d.guard.protection, d.cycle.target);
    next.cycle.left = 0;
    next
}

#[tactic(auto, unfolding(crate::specs::Tick::cycle_device))]
fn cycle_tick(d: Device) -> Device
    ensures { result ≡ cycle_device d }
{
    match d.cycle.left {
        0 => d,
        1 => cycle_ended(d),
        left => {
            let mut next = d;
            next.cycle.left = left - 1;
            next
        }
    }
}

// Oscillator, watchdog, event inputs, calendar, alarms.
#[tactic(auto, unfolding(crate::specs::Tick::clockwork))]
fn clockwork_tick(boots: bool, d: Device) -> Device
    ensures { result ≡ clockwork boots d }
{
    let counted = record::registers::is_oscon(d.counters);
    let asked = crate::oscillator::oscillator_tick(boots, d);
    let watched = crate::watchdog::watchdog_tick(counted, asked);
    let signalled = crate::event::event_tick(counted, watched);
    crate::clock::clock_tick(counted, signalled)
}

// The chip has power, or VBATEN is set: ticks count.
pub fn is_alive(d: Device) -> bool
    ensures { result ≡ alive d }
{
    d.power | record::registers::battery_enabled(d.regs)
}

// With power off and VBATEN clear nothing counts.
#[tactic(auto, unfolding(crate::specs::RecordTick::device_tick))]
pub fn device_tick(boots: bool, d: Device) -> Device
    ensures { result ≡ device_tick boots d }
{
    if is_alive(d) {
        return clockwork_tick(boots, cycle_tick(d));
    }
    d
}
