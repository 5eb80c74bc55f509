// The event inputs' part of a tick: window and debounce.
ghost use Rattle.std.specs.Prelude.{◌≡◌};
ghost use Rattle.ticks.specs.Event.{event_tick};

use detect::moment::Moment;
use record::Device;
use record::inputs::{inputs_of, with_inputs};

#[tactic(auto, unfolding(crate::specs::Event::event_tick))]
pub fn event_tick(counted: bool, d: Device) -> Device
    ensures { result ≡ event_tick counted d }
{
    let inputs = inputs_of(d);
    with_inputs(d, Moment { counted, inputs }.events_tick())
}
