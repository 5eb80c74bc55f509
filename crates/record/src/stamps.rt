// The time-stamps of a power failure, as registers.
ghost use Rattle.std.specs.Prelude.{◌≡◌, ◌<◌};
ghost use Rattle.record.specs.Stamps.{stamp_at, stamped, unstamped};

use crate::ClockAddress;
use crate::registers::{DATE, DAY, HOURS, MINUTES, MONTH, POWER_DOWN, POWER_UP};

// What a time-stamp holds.
#[derive(Clone, Copy)]
struct Stamp {
    minutes: u8,
    hours: u8,
    date: u8,
    // with the day of the week in its top three bits
    month: u8,
}

// The four registers of a time-stamp, from its first.
fn stamp_at(at: ClockAddress, s: Stamp, regs: [u8; 32]) -> [u8; 32]
    requires { at.0 < 29 }
    ensures { result ≡ stamp_at at.0 s.minutes s.hours s.date s.month regs }
{
    let a = at.0 as usize;
    let mut next = regs;
    next[a] = s.minutes;
    next[a + 1] = s.hours;
    next[a + 2] = s.date;
    next[a + 3] = s.month;
    next
}

// The time that the registers show is copied into a time-stamp, as it stands; hours without CALSGN.
#[tactic(auto, unfolding(crate::specs::Stamps::stamped))]
pub fn stamped_at(at: ClockAddress, regs: [u8; 32]) -> [u8; 32]
    requires { at.0 < 29 }
    ensures { result ≡ stamped at.0 regs }
{
    let s = Stamp {
        minutes: regs[MINUTES],
        hours: regs[HOURS] % 128,
        date: regs[DATE],
        month: regs[MONTH] % 32 + regs[DAY] % 8 * 32,
    };
    stamp_at(at, s, regs)
}

// Both time-stamps are cleared.
#[tactic(auto, unfolding(crate::specs::Stamps::unstamped))]
pub fn unstamped(regs: [u8; 32]) -> [u8; 32]
    ensures { result ≡ unstamped regs }
{
    let none = Stamp {
        minutes: 0,
        hours: 0,
        date: 0,
        month: 0,
    };
    let first = stamp_at(POWER_DOWN, none, regs);
    stamp_at(POWER_UP, none, first)
}
