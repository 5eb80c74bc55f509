// What the byte of 0Bh sets.
ghost use Rattle.std.specs.Prelude.{◌≡◌};
ghost use Rattle.events.specs.Control.{number_of, debounce_of, high_runs, low_runs, pulls_irq};

// The flags.
pub const EVHIF: u8 = 0x80;

pub const EVLIF: u8 = 0x40;

const NUMBERS: [u8; 4] = [1, 4, 16, 32];

pub const SHORT_DEBOUNCE: u16 = 1024;

pub const LONG_DEBOUNCE: u16 = 16384;

// A quarter of a second.
pub const WINDOW_TICKS: u16 = 8192;

// The number of edges that makes an event.
// Kept beside the watchdog's `period`: a table and a type of its own.
pub fn number(v: u8) -> u8
    ensures { result ≡ number_of v }
{
    let i = (v % 4) as usize;
    NUMBERS[i]
}

pub fn debounce_ticks(v: u8) -> u16
    ensures { result ≡ debounce_of v }
{
    if v / 4 % 2 == 1 {
        LONG_DEBOUNCE
    } else {
        SHORT_DEBOUNCE
    }
}

// EVEN1 set, EVHIF clear, counted.
pub fn high_runs(counted: bool, v: u8) -> bool
    ensures { result ≡ high_runs counted v }
{
    ((v / 32 % 2 == 1) & !(v / 128 % 2 == 1)) & counted
}

// EVEN0 set, EVLIF clear, counted. Kept beside `high_runs`: one test each, and a common one would be told both bits.
pub fn low_runs(counted: bool, v: u8) -> bool
    ensures { result ≡ low_runs counted v }
{
    ((v / 16 % 2 == 1) & !(v / 64 % 2 == 1)) & counted
}

// A flag holds IRQ low.
#[tactic(auto, unfolding(events::specs::Control::pulls_irq))]
pub fn pulls_irq(v: u8) -> bool
    ensures { result ≡ pulls_irq v }
{
    (v / 128 % 2 == 1) | (v / 64 % 2 == 1)
}
