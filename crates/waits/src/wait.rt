// A wait of the record: ticks up to the first that changes IRQ, WDO, an event's flag or WIP, or n.
ghost use Rattle.std.specs.Prelude.{◌≡◌};
ghost use Rattle.ticks.specs.RecordTick.{device_waited};

use crate::jump::{jump, quiet_ticks};
use record::Device;

#[derive(Clone, Copy)]
pub struct Waited {
    pub used: u64,
    pub device: Device,
}

pub fn wait_device(boots: bool, n: u64, d: Device) -> Waited
    ensures { (result.used ≡ (device_waited boots n d).used) × (result.device ≡ (device_waited boots n d).after) }
{
    if !ticks::tick::is_alive(d) {
        return Waited { used: n, device: d };
    }
    let mut now_device = d;
    let mut left = n;
    // Kept, a countdown: a turn takes one tick or many, so that no range or iterator has its turns.
    while 0 < left {
        let k = quiet_ticks(boots, left, now_device);
        if 0 < k {
            now_device = jump(boots, k, now_device);
            left -= k;
            continue;
        }
        let after = ticks::tick::device_tick(boots, now_device);
        let stops = ticks::lines::lines_changed(now_device, after);
        now_device = after;
        left -= 1;
        if stops {
            return Waited {
                used: n - left,
                device: now_device,
            };
        }
    }
    Waited {
        used: n,
        device: now_device,
    }
}
