// Ticks in which only counts move, taken at once.
ghost use Rattle.std.specs.Prelude.{◌≡◌, ◌<◌};
ghost use Rattle.record.specs.Registers.{oscon, divider_ticks};
ghost use Rattle.record.specs.Setters.{inputs_of};
ghost use Rattle.waits.specs.Jump.{watchdog_runs, clock_runs, jumped, above, watched, gap, divided, Quiet, quiet_ticks};

use detect::moment::Moment;
use record::Device;
use record::inputs::inputs_of;
use record::registers::{WATCHDOG, is_oscon, period};

// The ticks of a second.
const SECOND: u64 = record::registers::DIVIDER_TICKS as u64;

// The watchdog counts.
fn watchdog_runs(d: Device) -> bool
    ensures { result ≡ watchdog_runs d }
{
    ticks::watchdog::is_counting(is_oscon(d.counters), d.regs[WATCHDOG])
}

// Divider and calendar run.
fn clock_runs(d: Device) -> bool
    ensures { result ≡ clock_runs d }
{
    ticks::clock::is_running(is_oscon(d.counters), d)
}

// How far a count may fall and stay above 0.
fn stays_above(limit: u64, n: u64) -> u64
    ensures { result ≡ above limit n }
{
    if n == 0 { limit } else { limit.min(n - 1) }
}

fn watchdog_quiet(limit: u64, d: Device) -> u64
    ensures { result ≡ watched limit d }
{
    if !watchdog_runs(d) {
        return limit;
    }
    let c = d.counters;
    if c.delay == 0 {
        let most = u64::from(period(d.regs[WATCHDOG]));
        return limit.min((most - 1).saturating_sub(u64::from(c.watchdog)));
    }
    limit.min(u64::from(c.delay) - 1)
}

// How many ticks from a divider on advance no hundredth.
fn hundredth_gap(s: u64) -> u64
    requires { s < divider_ticks }
    ensures { result ≡ gap s }
{
    let q = 100 * s / SECOND + 1;
    ((q * SECOND - 1) / 100).saturating_sub(s)
}

fn divider_quiet(limit: u64, d: Device) -> u64
    ensures { result ≡ divided limit d }
{
    if !clock_runs(d) {
        return limit;
    }
    let s = u64::from(d.counters.divider);
    if s < SECOND {
        limit.min(hundredth_gap(s))
    } else {
        0
    }
}

// The event inputs, as each of the ticks finds them.
fn moment_of(d: Device) -> Moment
    ensures counted { result.counted ≡ oscon d.counters }
    ensures inputs { result.inputs ≡ inputs_of d }
{
    Moment {
        counted: is_oscon(d.counters),
        inputs: inputs_of(d),
    }
}

// How many ticks ahead, at most limit, in which only counts move.
#[tactic(auto, unfolding(crate::specs::Jump::quiet_ticks))]
pub fn quiet_ticks(boots: bool, limit: u64, d: Device) -> u64
    ensures { result ≡ quiet_ticks boots limit d }
{
    if ticks::oscillator::is_starting(boots, d) {
        return 0;
    }
    let a = stays_above(limit, u64::from(d.cycle.left));
    let b = stays_above(a, u64::from(d.counters.pulse));
    let v = divider_quiet(watchdog_quiet(b, d), d);
    moment_of(d).events_quiet(v)
}

// The device after k such ticks.
#[tactic(auto, unfolding(crate::specs::Jump::jumped))]
pub fn jump(boots: bool, k: u64, d: Device) -> Device
    requires { Quiet boots k d }
    ensures { result ≡ jumped k d }
{
    let mut next = d;
    next.cycle.left = u64::from(d.cycle.left).saturating_sub(k) as u8;
    next.counters.pulse = u64::from(d.counters.pulse).saturating_sub(k) as u16;
    if clock_runs(d) {
        next.counters.divider += k as u16;
    }
    if watchdog_runs(d) {
        if d.counters.delay == 0 {
            next.counters.watchdog += k as u32;
        }
        next.counters.delay = u64::from(d.counters.delay).saturating_sub(k) as u32;
    }
    next.events = moment_of(d).events_jump(k).events;
    next
}
