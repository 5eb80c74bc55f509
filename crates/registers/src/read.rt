// What READ answers at an address of the clock block.
ghost use Rattle.std.specs.Prelude.{◌≡◌};
ghost use Rattle.registers.specs.Read.{made, read_clock};

use record::registers::{ALARM_0_HOURS, ALARM_1_HOURS, DAY, HOURS, MONTH, TWELVE, YEAR, is_oscon};
use record::{ClockAddress, Device};

// The bits that are made when a register is read: OSCON, the leap bit, and 12/24 of both alarms.
fn made_bits(d: Device, at: ClockAddress) -> u8
    ensures { result ≡ made d at.0 }
{
    match at.0 as usize {
        DAY if is_oscon(d.counters) => 0x20,
        MONTH if calendar::leap(d.regs[YEAR]) => 0x20,
        ALARM_0_HOURS | ALARM_1_HOURS if d.regs[HOURS] / TWELVE % 2 == 1 => 0x40,
        _ => 0,
    }
}

#[tactic(auto, unfolding(crate::specs::Read::read_clock))]
pub fn read_clock(d: Device, at: ClockAddress) -> u8
    ensures { result ≡ read_clock d at }
{
    let a = at.0;
    if a < 0x20 {
        return d.regs[a as usize] | made_bits(d, at);
    }
    if a < 0x60 {
        return d.sram[(a - 0x20) as usize];
    }
    0
}
