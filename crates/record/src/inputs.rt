// The event inputs with the byte of 0Bh, taken out of the record and put back.
ghost use Rattle.std.specs.Prelude.{◌≡◌};
ghost use Rattle.record.specs.Setters.{inputs_of, with_inputs};

use crate::Device;
use crate::registers::EVENT;
use events::Inputs;

pub fn inputs_of(d: Device) -> Inputs
    ensures { result ≡ inputs_of d }
{
    Inputs {
        events: d.events,
        control: d.regs[EVENT],
    }
}

pub fn with_inputs(d: Device, s: Inputs) -> Device
    ensures { result ≡ with_inputs d s }
{
    let mut regs = d.regs;
    regs[EVENT] = s.control;
    Device {
        regs,
        events: s.events,
        ..d
    }
}
