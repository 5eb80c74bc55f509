#![tactic(auto, unfolding(events::specs::Jump::events_quiet, events::specs::Jump::events_jumped))]

// Ticks in which only the events' counts move, taken at once.
ghost use Rattle.std.specs.Prelude.{◌≡◌};
ghost use Rattle.events.specs.Jump.{window_quiet, debounce_quiet, events_quiet, raised_since, events_jumped};

use super::control::WINDOW_TICKS;
use super::moment::Moment;
use events::Inputs;

fn raised_since(k: u64, since: u16) -> u16
    ensures { result ≡ raised_since k since }
{
    if k <= u64::from(WINDOW_TICKS.saturating_sub(since)) {
        return since + k as u16;
    }
    since
}

impl Moment {
    fn window_quiet(self, limit: u64) -> u64
        ensures { result ≡ window_quiet self.counted limit self.inputs }
    {
        if self.window_runs() {
            return limit.min(u64::from(WINDOW_TICKS.saturating_sub(self.inputs.events.since)));
        }
        limit
    }

    fn debounce_quiet(self, limit: u64) -> u64
        ensures { result ≡ debounce_quiet self.counted limit self.inputs }
    {
        if self.debounce_runs() {
            return limit.min(u64::from(self.inputs.events.debounce.saturating_sub(1)));
        }
        limit
    }

    // How many ticks ahead, at most limit, in which only counts move.
    pub fn events_quiet(self, limit: u64) -> u64
        ensures { result ≡ events_quiet self.counted limit self.inputs }
    {
        self.debounce_quiet(self.window_quiet(limit))
    }

    // The inputs after k such ticks.
    pub fn events_jump(self, k: u64) -> Inputs
        ensures { result ≡ events_jumped self.counted k self.inputs }
    {
        let mut next = self.inputs;
        if self.window_runs() {
            next.events.since = raised_since(k, next.events.since);
        }
        if self.debounce_runs() {
            next.events.debounce = u64::from(next.events.debounce).saturating_sub(k) as u16;
        }
        next
    }
}
