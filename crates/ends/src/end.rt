// The end of a frame.
ghost use Rattle.std.specs.Prelude.{◌≡◌};
ghost use Rattle.ends.specs.End.{clears, sram_after, count_after, after_end};

use crate::lock::lock_after;
use crate::write::{cycle_after, wel_after};
use record::{Code, Counters, Device, EepromAddress, Frame, Guard, Stage};

// A code that clears does so (F20). `latched_by` is another rule (F19): it asks that no second byte came.
fn cleared_by(code: Code, k: u8, stage: Stage) -> bool
    ensures { result ≡ clears code k stage }
{
    ((stage.code() == code) & !stage.is_over()) & (k == 0)
}

fn sram_after(k: u8, d: Device) -> [u8; 64]
    ensures { result ≡ sram_after k d }
{
    if cleared_by(Code::Clrram, k, d.frame.stage) {
        [0u8; 64]
    } else {
        d.sram
    }
}

fn count_after(k: u8, d: Device) -> u32
    ensures { result ≡ count_after k d }
{
    if cleared_by(Code::Clrwdt, k, d.frame.stage) {
        0
    } else {
        d.counters.watchdog
    }
}

// The device after an end with k leftover bits.
// Three functions hand on the top address, the bits and the record; a struct would be made for that alone.
#[tactic(auto, unfolding(crate::specs::End::after_end))]
pub fn after_end(top: EepromAddress, k: u8, d: Device) -> Device
    ensures { result ≡ after_end top.0 k d }
{
    let stage = d.frame.stage;
    Device {
        sram: sram_after(k, d),
        counters: Counters {
            watchdog: count_after(k, d),
            ..d.counters
        },
        guard: Guard {
            wel: wel_after(k, d.guard.wel, stage),
            lock: lock_after(k, d.guard.lock, stage),
            ..d.guard
        },
        frame: Frame { stage: Stage::Idle },
        cycle: cycle_after(top, k, d),
        ..d
    }
}
