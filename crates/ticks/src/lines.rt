// The output lines and WIP, as functions of the record.
ghost use Rattle.std.specs.Prelude.{◌≡◌};
ghost use Rattle.ticks.specs.Lines.{irq_low, wdo_low, wip, flags_changed, changed};

use crate::alarm::Alarm;
use detect::control::{EVHIF, EVLIF};
use record::Device;
use record::registers::EVENT;

// IRQ is low.
#[tactic(auto, unfolding(crate::specs::Lines::irq_low))]
pub fn irq_low(d: Device) -> bool
    ensures { result ≡ irq_low d }
{
    Alarm::Zero.pulls_irq(d.regs)
        | Alarm::One.pulls_irq(d.regs)
        | detect::control::pulls_irq(d.regs[EVENT])
}

// WDO is low.
#[tactic(auto, unfolding(crate::specs::Lines::wdo_low))]
pub fn wdo_low(d: Device) -> bool
    ensures { result ≡ wdo_low d }
{
    (0 < d.counters.pulse) | Alarm::Zero.pulls_wdo(d.regs) | Alarm::One.pulls_wdo(d.regs)
}

// A write cycle runs.
pub fn in_progress(d: Device) -> bool
    ensures { result ≡ wip d }
{
    0 < d.cycle.left
}

// An event's flag is not what it was.
#[tactic(auto, unfolding(crate::specs::Lines::flags_changed))]
fn flags_changed(before: u8, after: u8) -> bool
    ensures { result ≡ flags_changed before after }
{
    ((before / EVHIF % 2 == 1) != (after / EVHIF % 2 == 1))
        | ((before / EVLIF % 2 == 1) != (after / EVLIF % 2 == 1))
}

// IRQ, WDO, an event's flag or WIP is not what it was.
#[tactic(auto, unfolding(crate::specs::Lines::changed))]
pub fn lines_changed(before: Device, after: Device) -> bool
    ensures { result ≡ changed before after }
{
    (irq_low(before) != irq_low(after))
        | (wdo_low(before) != wdo_low(after))
        | flags_changed(before.regs[EVENT], after.regs[EVENT])
        | (in_progress(before) != in_progress(after))
}
