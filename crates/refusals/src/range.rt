// Number 6: the record is out of range. Each row of the table's list is a test over the fields that it reads.
ghost use Rattle.std.specs.Prelude.{◌≡◌};
ghost use Rattle.refusals.specs.Range.{bit_outside, clock_out, frame_out, cycle_out, power_out, out_of_range};

use record::part::ID_LAST;
use record::registers::{
    CYCLE_TICKS, DELAY_TICKS, DIVIDER_LAST, EVENT, LONG_PULSE, SECONDS, ST, STARTUP_TICKS, WATCHDOG,
};
use record::{ClockAddress, Counters, Cycle, Device, Load, Stage, part, registers};

// Some register has a bit set outside its mask.
fn bit_outside(regs: [u8; 32]) -> bool
    ensures { result ≡ bit_outside regs }
{
    for (i, r) in regs.iter().enumerate() {
        let kept = registers::kept_bits(ClockAddress(i as u8));
        if (*r & kept) != *r {
            return true;
        }
    }
    false
}

// Registers and counts.
#[tactic(auto, unfolding(crate::specs::Range::clock_out))]
fn clock_out(boots: bool, regs: [u8; 32], c: Counters) -> bool
    ensures { result ≡ clock_out boots regs c }
{
    let most = registers::period(regs[WATCHDOG]);
    let stopped = !boots & !(regs[SECONDS] / ST % 2 == 1);
    let outside = bit_outside(regs);
    (DIVIDER_LAST < c.divider)
        | (STARTUP_TICKS < c.startup)
        | (LONG_PULSE < c.pulse)
        | (DELAY_TICKS < c.delay)
        | (most <= c.watchdog)
        | (stopped & (0 < c.startup))
        | outside
}

// The frame and its page load.
#[tactic(auto, unfolding(crate::specs::Range::frame_out))]
fn frame_out(size: u16, stage: Stage, load: Load) -> bool
    ensures { result ≡ frame_out size stage load }
{
    let place = stage.place();
    let id = place.id_pointer();
    let eeprom = place.eeprom_pointer() as u16;
    (7 < load.next) | (ID_LAST < id) | (size <= eeprom)
}

// The write cycle.
#[tactic(auto, unfolding(crate::specs::Range::cycle_out))]
fn cycle_out(size: u16, cycle: Cycle) -> bool
    ensures { result ≡ cycle_out size cycle }
{
    let place = cycle.target.place();
    let id = place.id_pointer();
    let eeprom = place.eeprom_pointer() as u16;
    (CYCLE_TICKS < cycle.left) | (ID_LAST < id) | (size <= eeprom)
}

// What power, mark, frame and cycle say together.
#[tactic(auto, unfolding(crate::specs::Range::power_out))]
fn power_out(power: bool, mark: bool, stage: Stage, cycle: Cycle) -> bool
    ensures { result ≡ power_out power mark stage cycle }
{
    let busy = 0 < cycle.left;
    let open = stage.is_selected();
    let foreign = stage.foreign_to_wip();
    (power & mark) | (!power & (open | busy)) | (busy & foreign)
}

// Number 6.
#[tactic(auto, unfolding(crate::specs::Range::out_of_range))]
pub fn out_of_range(part: u64, d: Device) -> bool
    ensures { result ≡ out_of_range part d }
{
    let size = part::size(part);
    let stage = d.frame.stage;
    clock_out(part::boots(part), d.regs, d.counters)
        | frame_out(size, stage, d.load)
        | cycle_out(size, d.cycle)
        | power_out(d.power, d.mark, stage, d.cycle)
        | detect::range::events_out(d.regs[EVENT], d.events)
}
