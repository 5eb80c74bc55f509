// What WRITE does at an address of the clock block. Kept, `boots`, the device and the address side by side: three functions hand them on, and a struct of
// them would be made for that alone.
ghost use Rattle.std.specs.Prelude.{◌≡◌, ◌<◌};
ghost use Rattle.registers.specs.Write.{delay_after, day_written, after_write, under_mask, write_register, write_clock};

use record::registers::{
    DAY, DELAY_TICKS, EVENT, SECONDS, ST, VBAT, WATCHDOG, WDDEL, WDTEN, WDTIF, WRITABLE,
};
use record::{ClockAddress, Device, registers, stamps};

// The delay that a value of 0Ah sets.
fn delay_after(v: u8) -> u32
    ensures { result ≡ delay_after v }
{
    if (v / WDTEN % 2 == 1) & (v / WDDEL % 2 == 1) & !(v / WDTIF % 2 == 1) {
        DELAY_TICKS
    } else {
        0
    }
}

// The registers after a write of 04h, with VBAT as it was before: a 0 clears VBAT and both time-stamps, a 1 leaves VBAT what it was.
fn day_written(vbat: bool, regs: [u8; 32]) -> [u8; 32]
    ensures { result ≡ day_written vbat regs }
{
    if !registers::vbat_set(regs) {
        return stamps::unstamped(regs);
    }
    let mut next = regs;
    if !vbat {
        next[DAY] = regs[DAY] & !VBAT;
    }
    next
}

// What follows from a register's write: 01h may stop the oscillator, 04h may clear VBAT, 0Ah restarts the watchdog, 0Bh ends
// what the event inputs count.
#[tactic(auto, unfolding(crate::specs::Write::after_write))]
fn after_write(boots: bool, vbat: bool, at: ClockAddress, d: Device) -> Device
    ensures { result ≡ after_write boots vbat at.0 d }
{
    let mut next = d;
    match at.0 as usize {
        SECONDS => {
            if !boots & !(d.regs[SECONDS] / ST % 2 == 1) {
                next.counters.startup = 0;
            }
        }
        DAY => {
            let regs = day_written(vbat, d.regs);
            next.regs = regs;
        }
        WATCHDOG => {
            next.counters.watchdog = 0;
            next.counters.delay = delay_after(d.regs[WATCHDOG]);
        }
        EVENT => {
            let events = detect::pins::no_counts(d.events);
            next.events = events;
        }
        _ => {}
    }
    next
}

// A byte written over another under a mask: what the mask leaves out keeps its value.
fn under_mask(mask: u8, old: u8, v: u8) -> u8
    ensures { result ≡ under_mask mask old v }
{
    (old & (255 - mask)) | (v & mask)
}

// WRITE to a register, under its mask.
fn write_register(boots: bool, d: Device, at: ClockAddress, v: u8) -> Device
    requires { at.0 < 32 }
    ensures { result ≡ write_register boots d at.0 v }
{
    let i = at.0 as usize;
    let vbat = registers::vbat_set(d.regs);
    let mut next = d;
    next.regs[i] = under_mask(WRITABLE[i], d.regs[i], v);
    after_write(boots, vbat, at, next)
}

// From 60h up a WRITE is dropped (bench).
#[tactic(auto, unfolding(crate::specs::Write::write_clock))]
pub fn write_clock(boots: bool, d: Device, at: ClockAddress, v: u8) -> Device
    ensures { result ≡ write_clock boots d at v }
{
    let a = at.0;
    if a < 0x20 {
        return write_register(boots, d, at, v);
    }
    let mut next = d;
    if a < 0x60 {
        next.sram[(a - 0x20) as usize] = v;
    }
    next
}
