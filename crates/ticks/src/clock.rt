// The divider, the calendar and the alarms of a tick.
ghost use Rattle.std.specs.Prelude.{◌≡◌};
ghost use Rattle.ticks.specs.Clock.{time_of, with_time, hundredth_due, running, divider_tick, calendar_tick, alarm_tick};

use calendar::Time;
use record::Device;
use record::registers::{
    DATE, DAY, DIVIDER_TICKS, HOURS, HUNDREDTHS, MINUTES, MONTH, SECONDS, ST, YEAR,
};

// Kept, no From: neither type is this crate's.
fn time_of(regs: [u8; 32]) -> Time
    ensures { result ≡ time_of regs }
{
    Time {
        hundredths: regs[HUNDREDTHS],
        seconds: regs[SECONDS],
        minutes: regs[MINUTES],
        hours: regs[HOURS],
        day: regs[DAY],
        date: regs[DATE],
        month: regs[MONTH],
        year: regs[YEAR],
    }
}

#[tactic(auto, unfolding(crate::specs::Clock::with_time))]
fn with_time(regs: [u8; 32], t: Time) -> [u8; 32]
    ensures { result ≡ with_time regs t }
{
    let mut next = regs;
    next[HUNDREDTHS] = t.hundredths;
    next[SECONDS] = t.seconds;
    next[MINUTES] = t.minutes;
    next[HOURS] = t.hours;
    next[DAY] = t.day;
    next[DATE] = t.date;
    next[MONTH] = t.month;
    next[YEAR] = t.year;
    next
}

// The hundredths advance where floor(100 s / 32768) grows.
fn hundredth_due(s: u16) -> bool
    ensures { result ≡ hundredth_due s }
{
    let n = u32::from(s);
    100 * n / DIVIDER_TICKS < 100 * (n + 1) / DIVIDER_TICKS
}

fn divider_tick(runs: bool, d: Device) -> Device
    ensures { result ≡ divider_tick runs d }
{
    let mut next = d;
    if runs {
        next.counters.divider = ((u32::from(d.counters.divider) + 1) % DIVIDER_TICKS) as u16;
    }
    next
}

// Divider and calendar run: ST is set, and the tick is counted.
pub fn is_running(counted: bool, d: Device) -> bool
    ensures { result ≡ running counted d }
{
    counted & (d.regs[SECONDS] / ST % 2 == 1)
}

// Calendar, then alarms over the registers as it left them.
#[tactic(auto, using(crate::proofs::ClockLaws::clock_still), unfolding(crate::specs::Clock::calendar_tick))]
pub fn clock_tick(counted: bool, d: Device) -> Device
    ensures { result ≡ alarm_tick counted d (calendar_tick counted d) }
{
    let runs = is_running(counted, d);
    let mut next = divider_tick(runs, d);
    if runs & hundredth_due(d.counters.divider) {
        let a = calendar::advance(time_of(d.regs));
        let regs = crate::alarm::alarms(a, with_time(d.regs, a.time));
        next.regs = regs;
    }
    next
}
