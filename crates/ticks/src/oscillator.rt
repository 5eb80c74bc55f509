// The oscillator's part of a tick.
ghost use Rattle.std.specs.Prelude.{◌≡◌};
ghost use Rattle.ticks.specs.Oscillator.{starting, oscillator_tick};

use record::Device;
use record::registers::{SECONDS, ST, STARTUP_TICKS};

// The oscillator is asked to run, and its start-up count has not come to its end.
pub fn is_starting(boots: bool, d: Device) -> bool
    ensures { result ≡ starting boots d }
{
    (boots | (d.regs[SECONDS] / ST % 2 == 1)) & (d.counters.startup < STARTUP_TICKS)
}

// The start-up count goes up to 32 while the oscillator is asked to run.
#[tactic(auto, unfolding(crate::specs::Oscillator::oscillator_tick))]
pub fn oscillator_tick(boots: bool, d: Device) -> Device
    ensures { result ≡ oscillator_tick boots d }
{
    let mut next = d;
    if is_starting(boots, d) {
        next.counters.startup += 1;
    }
    next
}
