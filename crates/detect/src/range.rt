#![tactic(auto, unfolding(events::specs::Range::window_out, events::specs::Range::debounce_out, events::specs::Range::events_out))]

// Number 6 for the event inputs: each row of the list is a test over the fields that it reads.
ghost use Rattle.std.specs.Prelude.{◌≡◌};
ghost use Rattle.events.specs.Range.{window_out, debounce_out, events_out};

use super::control::WINDOW_TICKS;
use events::Events;

fn window_out(v: u8, e: Events) -> bool
    ensures { result ≡ window_out v e }
{
    let most = super::control::number(v);
    (most <= e.edges)
        | (WINDOW_TICKS < e.since)
        | ((e.edges == 0) & (0 < e.since))
        | (!(v / 32 % 2 == 1) & ((0 < e.edges) | (0 < e.since)))
}

fn debounce_out(v: u8, e: Events) -> bool
    ensures { result ≡ debounce_out v e }
{
    let most = super::control::debounce_ticks(v);
    ((1 < e.door) | (1 < e.drum))
        | (most < e.debounce)
        | ((e.door == 0) & (0 < e.debounce))
        | (!(v / 16 % 2 == 1) & (0 < e.debounce))
}

// Number 6.
pub fn events_out(v: u8, e: Events) -> bool
    ensures { result ≡ events_out v e }
{
    let windowed = window_out(v, e);
    let debounced = debounce_out(v, e);
    windowed | debounced
}
