#![tactic(auto)]

// The event inputs in code: what an edge, a tick, a write of 0Bh, a cut and a jump do to them.
pub mod control; // control.rt: what the byte of 0Bh sets
pub mod moment; // moment.rt: the inputs, and whether what comes is counted
pub mod pins; // pins.rt: levels, a write of 0Bh, a cut
pub mod tick; // tick.rt: the events' part of a tick
pub mod range; // range.rt: number 6
pub mod jump; // jump.rt: ticks in which only counts move
