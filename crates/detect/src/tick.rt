// The events' part of a tick: the window, then the debounce.
ghost use Rattle.std.specs.Prelude.{◌≡◌};
ghost use Rattle.events.specs.Tick.{window_runs, window_tick, debounce_runs, debounce_tick, events_tick};

use super::control::{EVLIF, WINDOW_TICKS, high_runs, low_runs};
use super::moment::Moment;
use events::Inputs;

impl Moment {
    // The ticks since the first edge run.
    pub fn window_runs(self) -> bool
        ensures { result ≡ window_runs self.counted self.inputs }
    {
        high_runs(self.counted, self.inputs.control) & (0 < self.inputs.events.edges)
    }

    fn window_tick(self) -> Inputs
        ensures { result ≡ window_tick self.counted self.inputs }
    {
        let mut next = self.inputs;
        if self.window_runs() {
            if next.events.since < WINDOW_TICKS {
                next.events.since += 1;
            } else {
                next.events.edges = 0;
                next.events.since = 0;
            }
        }
        next
    }

    // The debounce runs. Kept beside `window_runs`: one test each, of two fields.
    pub fn debounce_runs(self) -> bool
        ensures { result ≡ debounce_runs self.counted self.inputs }
    {
        low_runs(self.counted, self.inputs.control) & (0 < self.inputs.events.debounce)
    }

    fn debounce_tick(self) -> Inputs
        ensures { result ≡ debounce_tick self.counted self.inputs }
    {
        let mut next = self.inputs;
        if self.debounce_runs() {
            if next.events.debounce == 1 {
                next.control |= EVLIF;
            }
            next.events.debounce -= 1;
        }
        next
    }

    #[tactic(auto, unfolding(events::specs::Tick::events_tick))]
    pub fn events_tick(self) -> Inputs
        ensures { result ≡ events_tick self.counted self.inputs }
    {
        let inputs = self.window_tick();
        Moment { inputs, ..self }.debounce_tick()
    }
}
