// The watchdog's part of a tick: pulse, delay, count.
ghost use Rattle.std.specs.Prelude.{◌≡◌};
ghost use Rattle.ticks.specs.Watchdog.{counting, pulse_tick, time_out, counted_tick, watchdog_tick};

use record::Device;
use record::registers::{LONG_PULSE, SHORT_PULSE, WATCHDOG, WDTEN, WDTIF, WDTPLS, period};

// A pulse that runs loses one at every tick.
fn pulse_tick(d: Device) -> Device
    ensures { result ≡ pulse_tick d }
{
    let mut next = d;
    next.counters.pulse = d.counters.pulse.saturating_sub(1);
    next
}

// The count came to its period: the flag is set and WDO pulses.
fn time_out(d: Device) -> Device
    ensures { result ≡ time_out d }
{
    let v = d.regs[WATCHDOG];
    let mut next = d;
    next.regs[WATCHDOG] = v | WDTIF;
    next.counters.watchdog = 0;
    next.counters.pulse = if v / WDTPLS % 2 == 1 {
        LONG_PULSE
    } else {
        SHORT_PULSE
    };
    next
}

// A tick that the watchdog counts: the delay runs down first.
fn counted_tick(d: Device) -> Device
    ensures { result ≡ counted_tick d }
{
    let mut next = d;
    if 0 < d.counters.delay {
        next.counters.delay -= 1;
        return next;
    }
    if d.counters.watchdog < period(d.regs[WATCHDOG]) - 1 {
        next.counters.watchdog += 1;
        return next;
    }
    time_out(d)
}

// The watchdog counts: WDTEN is set, WDTIF clear, and the tick is counted.
pub fn is_counting(counted: bool, v: u8) -> bool
    ensures { result ≡ counting counted v }
{
    ((v / WDTEN % 2 == 1) & !(v / WDTIF % 2 == 1)) & counted
}

#[tactic(auto, unfolding(crate::specs::Watchdog::watchdog_tick))]
pub fn watchdog_tick(counted: bool, d: Device) -> Device
    ensures { result ≡ watchdog_tick counted d }
{
    let pulsed = pulse_tick(d);
    if is_counting(counted, d.regs[WATCHDOG]) {
        return counted_tick(pulsed);
    }
    pulsed
}
