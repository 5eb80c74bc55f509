#![tactic(auto, unfolding(events::specs::Pins::drum_set, events::specs::Pins::door_set, events::specs::Pins::zeroes_watchdog))]

// What a level set at EVHS or EVLS, a write of 0Bh and a cut do.
ghost use Rattle.std.specs.Prelude.{◌≡◌};
ghost use Rattle.events.specs.Pins.{rising, falling, with_drum, with_door, edge_counted, counts_edge, drum_set, zeroes_watchdog, door_set, no_counts};

use super::control::{EVHIF, debounce_ticks, high_runs, low_runs, number};
use super::moment::Moment;
use events::{Events, Inputs};

fn is_rising(old: u8, new: u8) -> bool
    ensures { result ≡ rising old new }
{
    (old == 0) & (0 < new)
}

fn is_falling(old: u8, new: u8) -> bool
    ensures { result ≡ falling old new }
{
    (0 < old) & (new == 0)
}

// A rise of EVHS would count.
fn counts_edge(counted: bool, v: u8) -> bool
    ensures { result ≡ counts_edge counted v }
{
    high_runs(counted, v) & !(v / 8 % 2 == 1)
}

// An edge that is counted: the one that fills the number sets EVHIF.
fn edge_counted(s: Inputs) -> Inputs
    ensures { result ≡ edge_counted s }
{
    let mut next = s;
    if s.events.edges < number(s.control) - 1 {
        next.events.edges += 1;
        return next;
    }
    next.events.edges = 0;
    next.events.since = 0;
    next.control |= EVHIF;
    next
}

// Whether setting EVHS to a level makes the watchdog's count 0. Asked of the inputs before it is set.
pub fn zeroes_watchdog(level: u8, s: Inputs) -> bool
    ensures { result ≡ zeroes_watchdog level s }
{
    let old = s.events.drum;
    (s.control / 8 % 2 == 1) & (is_rising(old, level) | is_falling(old, level))
}

impl Moment {
    // EVHS is set to a level.
    pub fn drum_set(self, level: u8) -> Inputs
        ensures { result ≡ drum_set self.counted level self.inputs }
    {
        let s = self.inputs;
        let mut next = s;
        next.events.drum = level;
        if is_rising(s.events.drum, level) & counts_edge(self.counted, s.control) {
            return edge_counted(next);
        }
        next
    }

    // EVLS is set to a level.
    pub fn door_set(self, level: u8) -> Inputs
        ensures { result ≡ door_set self.counted level self.inputs }
    {
        let s = self.inputs;
        let old = s.events.door;
        let mut next = s;
        next.events.door = level;
        if is_falling(old, level) {
            next.events.debounce = 0;
        } else if is_rising(old, level) & low_runs(self.counted, s.control) {
            next.events.debounce = debounce_ticks(s.control);
        }
        next
    }
}

// The counts at 0, the levels as they are.
pub fn no_counts(e: Events) -> Events
    ensures { result ≡ no_counts e }
{
    Events {
        edges: 0,
        since: 0,
        debounce: 0,
        ..e
    }
}
