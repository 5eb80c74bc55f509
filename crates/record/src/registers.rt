// The registers' addresses and masks, the watchdog's periods, and the limits, each named once.
ghost use Rattle.std.specs.Prelude.{◌≡◌, ◌<◌, get_or};
ghost use Rattle.record.specs.Registers.{kept, period_of, oscon, vbaten, vbat};

use crate::{ClockAddress, Counters};

// Addresses by the sheet's names.
pub const HUNDREDTHS: usize = 0x00;

pub const SECONDS: usize = 0x01;

pub const MINUTES: usize = 0x02;

pub const HOURS: usize = 0x03;

pub const DAY: usize = 0x04;

pub const DATE: usize = 0x05;

pub const MONTH: usize = 0x06;

pub const YEAR: usize = 0x07;

pub const CONTROL: usize = 0x08;

pub const WATCHDOG: usize = 0x0a;

pub const EVENT: usize = 0x0b;

// The alarms: their hours, the register of their flag, and what only one of them has.
pub const ALARM_0_HOURS: usize = 0x0e;

pub const ALARM_0: usize = 0x0f;

pub const ALARM_0_MONTH: usize = 0x11;

pub const ALARM_1_HUNDREDTHS: usize = 0x12;

pub const ALARM_1_HOURS: usize = 0x15;

pub const ALARM_1: usize = 0x16;

// The first register of each time-stamp.
pub const POWER_DOWN: ClockAddress = ClockAddress(0x18);

pub const POWER_UP: ClockAddress = ClockAddress(0x1c);

// Bits by the sheet's names, each as its weight: a byte divided by it is odd where the bit is set. That test is written out everywhere: it is the
// definition `bit` as it stands, and a function for it would be a promise more in each proof. 01h:
pub const ST: u8 = 0x80;

// 03h.
pub const TWELVE: u8 = 0x40;

// 04h.
pub const VBATEN: u8 = 0x08;

pub const VBAT: u8 = 0x10;

// 08h.
pub const ALM_0: u8 = 0x10;

pub const ALM_1: u8 = 0x20;

// 0Ah.
pub const WDTEN: u8 = 0x80;

pub const WDTIF: u8 = 0x40;

pub const WDDEL: u8 = 0x20;

pub const WDTPLS: u8 = 0x10;

// 0Fh and 16h; the code is the three bits from ALM_CODE up.
pub const ALM_PIN: u8 = 0x80;

pub const ALM_CODE: u8 = 0x10;

pub const ALM_IF: u8 = 0x08;

// The bits of each register that a WRITE may change, 00h to 1Fh; of a time-stamp none.
pub const WRITABLE: [u8; 32] = [
    0xff, 0xff, 0x7f, 0xff, 0x1f, 0x3f, 0x1f, 0xff, 0xff, 0xff, 0xff, 0xff, 0x7f, 0x7f, 0x3f, 0xff,
    0x3f, 0x1f, 0xff, 0x7f, 0x7f, 0x3f, 0xff, 0x3f, 0, 0, 0, 0, 0, 0, 0, 0,
];

// The watchdog's periods in ticks, by bits 2:0 of 0Ah.
const PERIODS: [u32; 8] = [32, 512, 2048, 4096, 32768, 524288, 1048576, 2097152];

// A write cycle lasts 164 ticks (bench).
pub const CYCLE_TICKS: u8 = 164;

// OSCON sets at the 32nd asked tick.
pub const STARTUP_TICKS: u8 = 32;

// 32,768 ticks are a second, and the divider stays below.
pub const DIVIDER_TICKS: u32 = 32768;

pub const DIVIDER_LAST: u16 = (DIVIDER_TICKS - 1) as u16;

// The pulse on WDO, 122 us and 125 ms.
pub const SHORT_PULSE: u16 = 4;

pub const LONG_PULSE: u16 = 4096;

// The watchdog's delay, 64 s.
pub const DELAY_TICKS: u32 = 2097152;

// The longest wait.
pub const WAIT_LIMIT: u64 = 16777216;

// The bits that a register may hold: those that a WRITE may change; of a time-stamp all.
pub fn kept_bits(at: ClockAddress) -> u8
    requires { at.0 < 32 }
    ensures { result ≡ get_or kept at.0 0 }
{
    if at.0 < POWER_DOWN.0 {
        let i = at.0 as usize;
        return WRITABLE[i];
    }
    0xff
}

// The period that a value of 0Ah sets.
pub fn period(v: u8) -> u32
    ensures { result ≡ period_of v }
{
    let i = (v % 8) as usize;
    PERIODS[i]
}

// The start-up count has come to its end.
pub fn is_oscon(c: Counters) -> bool
    ensures { result ≡ oscon c }
{
    c.startup == STARTUP_TICKS
}

// VBATEN is set.
// Kept beside `vbat_set`: the test of a bit is the definition's as it stands.
pub fn battery_enabled(regs: [u8; 32]) -> bool
    ensures { result ≡ vbaten regs }
{
    regs[DAY] / VBATEN % 2 == 1
}

// VBAT is set.
pub fn vbat_set(regs: [u8; 32]) -> bool
    ensures { result ≡ vbat regs }
{
    regs[DAY] / VBAT % 2 == 1
}
