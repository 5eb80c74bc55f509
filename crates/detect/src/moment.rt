// The event inputs as an act or a tick finds them. What it does to them is said by the methods in pins.rt, tick.rt and jump.rt.
use events::Inputs;

// The inputs, and whether the act or the tick is counted: OSCON was set before it.
#[derive(Clone, Copy)]
pub struct Moment {
    pub counted: bool,
    pub inputs: Inputs,
}
