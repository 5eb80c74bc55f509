#![tactic(auto)]

// The chip's ticks and its output lines, as functions of its record. The calendar is known by its promise alone.
// Kept, `boots` and `counted` beside a device: the part tells the one, the device before the tick the other, and the type is the record's.
pub mod lines; // lines.rt: IRQ, WDO, WIP
pub mod alarm; // alarm.rt: which alarm matches, and its flag
pub mod oscillator; // oscillator.rt: the start-up count
pub mod watchdog; // watchdog.rt: count, delay, pulse
pub mod event; // event.rt: the event inputs
pub mod clock; // clock.rt: divider, calendar and alarms
pub mod tick; // tick.rt: one tick of the record
