#![tactic(auto)]

// The level of an event input set, on the record.
ghost use Rattle.std.specs.Prelude.{◌≡◌};
ghost use Rattle.pins.specs.Set.{after_set};

use detect::moment::Moment;
use detect::pins::zeroes_watchdog;
use record::inputs::{inputs_of, with_inputs};
use record::registers::is_oscon;
use record::{Device, Pin};

// A pin set to a level: EVLS, the door's switch, or EVHS, the drum's sensor. With EVWDT set an edge of EVHS makes the watchdog's count 0.
#[tactic(auto, unfolding(crate::specs::Set::after_set))]
pub fn after_set(pin: Pin, level: u8, d: Device) -> Device
    ensures { result ≡ after_set pin level d }
{
    let inputs = inputs_of(d);
    let counted = is_oscon(d.counters);
    let moment = Moment { counted, inputs };
    match pin {
        Pin::Evls => with_inputs(d, moment.door_set(level)),
        Pin::Evhs => {
            let mut next = with_inputs(d, moment.drum_set(level));
            if zeroes_watchdog(level, inputs) {
                next.counters.watchdog = 0;
            }
            next
        }
    }
}
