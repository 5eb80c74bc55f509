#![tactic(auto)]

// C6. The calendar: BCD fields and dates, the step of a field with its carry, of a date and of the time registers.
// Every public function answers, for every byte, valid or not, what its definition in specs/ says.
pub mod field; // field.rt: one BCD field

ghost use Rattle.std.specs.Prelude.{◌≡◌, ◌<◌};
ghost use Rattle.calendar.specs.Field.{valid_field, on_carry};
ghost use Rattle.calendar.specs.Clock.{valid_hundredths, first_hundredths, next_hundredths};
ghost use Rattle.calendar.specs.Hours.{twelve_hour, hour_of_twelve, twelve_of_hour, next_twelve};
ghost use Rattle.calendar.specs.Hours.{valid_hours, first_hours, next_hours};
ghost use Rattle.calendar.specs.Date.{leap_year, month_length, date_last, valid_date, next_date};
ghost use Rattle.calendar.specs.Time.{date_of, with_date, on_day, advanced};

use field::Field;

// A field or a date after its step, and whether it carried.
#[derive(Clone, Copy)]
pub struct Step<T> {
    pub value: T,
    pub carry: bool,
}

// Bare fields, with no chip's control bits.
#[derive(Clone, Copy)]
pub struct Date {
    pub day: u8,
    pub date: u8,
    pub month: u8,
    pub year: u8,
}

// The stored bytes 00h to 07h, with their control bits.
#[derive(Clone, Copy)]
pub struct Time {
    pub hundredths: u8,
    pub seconds: u8,
    pub minutes: u8,
    pub hours: u8,
    pub day: u8,
    pub date: u8,
    pub month: u8,
    pub year: u8,
}

// K10. The next eight bytes, and which fields took a value: hundredths always do, day and date together.
#[derive(Clone, Copy)]
pub struct Advanced {
    pub time: Time,
    pub seconds: bool,
    pub minutes: bool,
    pub hours: bool,
    pub days: bool,
}

// K8. The fields of the registers 00h to 07h; of a date's the last value goes by its month (`dates`).
pub const HUNDREDTHS: Field = Field {
    first: 0x00,
    last: 0x99,
    width: 256, // the whole byte
};

pub const SECONDS: Field = Field {
    first: 0x00,
    last: 0x59,
    width: 128,
};

pub const MINUTES: Field = SECONDS;

// In 24-hour format.
pub const HOURS: Field = Field {
    first: 0x00,
    last: 0x23,
    width: 64,
};

pub const DAYS: Field = Field {
    first: 1,
    last: 7,
    width: 8,
};

pub const DATES: Field = Field {
    first: 0x01,
    last: 0x31,
    width: 64,
};

pub const MONTHS: Field = Field {
    first: 0x01,
    last: 0x12,
    width: 32,
};

pub const YEARS: Field = Field {
    first: 0x00,
    last: 0x99,
    width: 256,
};

// K15. The hours of the 12-hour format, beside AM/PM.
const TWELVE: Field = Field {
    first: 0x01,
    last: 0x12,
    width: 32,
};

// 12 AM.
pub const TWELVE_FIRST: u8 = 0x12;

// K7, K8. Hundredths fill their byte. Kept beside the field: of its width nothing else speaks.
pub fn valid_hundredths(b: u8) -> bool
    ensures { result ≡ valid_hundredths b }
{
    HUNDREDTHS.holds_valid(b)
}

pub fn first_hundredths(b: u8) -> u8
    ensures { result ≡ first_hundredths b }
{
    HUNDREDTHS.first_beside(b)
}

pub fn next_hundredths(b: u8) -> Step<u8>
    ensures { result ≡ next_hundredths b }
{
    HUNDREDTHS.next_beside(b)
}

// K10. A field moves only where the one before it carried.
pub fn on_carry(carry: bool, x: u8, next: Step<u8>) -> Step<u8>
    ensures { result ≡ on_carry carry x next }
{
    if carry {
        return next;
    }
    Step {
        value: x,
        carry: false,
    }
}

// K9, K14, K15. Hours: the stored byte. Bit 7 (CALSGN) and bit 6 (12/24) stay; in 12-hour format bit 5 is PM.

fn is_twelve_hour(b: u8) -> bool
    ensures { result ≡ twelve_hour b }
{
    b / 64 % 2 == 1
}

// K15. The hour of the day of bits 5:0 in 12-hour format: 12 AM is 0, 11 PM is 23.
fn hour_of_twelve(f: u8) -> u8
    requires { f < 64 }
    ensures { result ≡ hour_of_twelve f }
{
    let h = f % 32;
    (h / 16 * 10 + h % 16) % 12 + f / 32 * 12
}

// K15. Bits 5:0 in 12-hour format of an hour of the day.
fn twelve_of_hour(h: u8) -> u8
    requires { h < 24 }
    ensures { result ≡ twelve_of_hour h }
{
    let x = h % 12;
    if x == 0 {
        return h / 12 * 32 + 0x12;
    }
    h / 12 * 32 + (x / 10 * 16 + x % 10)
}

fn next_twelve(f: u8) -> Step<u8>
    requires { f < 64 }
    ensures { result ≡ next_twelve f }
{
    let h = hour_of_twelve(f);
    if TWELVE.holds_valid(f) & (h < 23) {
        return Step {
            value: twelve_of_hour(h + 1),
            carry: false,
        };
    }
    Step {
        value: TWELVE_FIRST,
        carry: true,
    }
}

#[tactic(auto, unfolding(crate::specs::Hours::valid_hours))]
pub fn valid_hours(b: u8) -> bool
    ensures { result ≡ valid_hours b }
{
    if is_twelve_hour(b) {
        return TWELVE.holds_valid(b % 64);
    }
    HOURS.holds_valid(b)
}

#[tactic(auto, unfolding(crate::specs::Hours::first_hours))]
pub fn first_hours(b: u8) -> u8
    ensures { result ≡ first_hours b }
{
    if is_twelve_hour(b) {
        return HOURS.beside(b, TWELVE_FIRST);
    }
    HOURS.first_beside(b)
}

#[tactic(auto, unfolding(crate::specs::Hours::next_hours))]
pub fn next_hours(b: u8) -> Step<u8>
    ensures { result ≡ next_hours b }
{
    if !is_twelve_hour(b) {
        return HOURS.next_beside(b);
    }
    let s = next_twelve(b % 64);
    Step {
        value: HOURS.beside(b, s.value),
        carry: s.carry,
    }
}

// Day, date, month and year: bare fields.

// K13. Of the number that the byte stands for.
#[tactic(auto, unfolding(crate::specs::Date::leap_year))]
pub fn leap(year: u8) -> bool
    ensures { result ≡ leap_year year }
{
    YEARS.is_valid(year) & ((year / 16 * 10 + year % 16) % 4 == 0)
}

// K12. The length of what is no month.
const NO_MONTH: u8 = 0x31;

// K12. The length of each month of a common year, in BCD, by the month's field. Kept, a table: D173.
const LENGTHS: [u8; 32] = [
    NO_MONTH, // 00h
    0x31, // January
    0x28, // February
    0x31, // March
    0x30, // April
    0x31, // May
    0x30, // June
    0x31, // July
    0x31, // August
    0x30, // September
    NO_MONTH, // 0Ah
    NO_MONTH, // 0Bh
    NO_MONTH, // 0Ch
    NO_MONTH, // 0Dh
    NO_MONTH, // 0Eh
    NO_MONTH, // 0Fh
    0x31, // October
    0x30, // November
    0x31, // December
    NO_MONTH, // 13h
    NO_MONTH, // 14h
    NO_MONTH, // 15h
    NO_MONTH, // 16h
    NO_MONTH, // 17h
    NO_MONTH, // 18h
    NO_MONTH, // 19h
    NO_MONTH, // 1Ah
    NO_MONTH, // 1Bh
    NO_MONTH, // 1Ch
    NO_MONTH, // 1Dh
    NO_MONTH, // 1Eh
    NO_MONTH, // 1Fh
];

// K12. In BCD. A month that is not valid has 31 days.
pub fn month_length(month: u8, leap: bool) -> u8
    ensures { result ≡ month_length month leap }
{
    if leap & (month == 0x02) {
        return 0x29;
    }
    if month < 32 {
        let i = month as usize;
        return LENGTHS[i];
    }
    NO_MONTH
}

// K12. The field of a date in a month.
fn dates(month: u8, year: u8) -> Field
    ensures first { result.first ≡ 0x01 }
    ensures last { result.last ≡ date_last month year }
{
    Field {
        first: DATES.first,
        last: month_length(month, leap(year)),
        width: DATES.width,
    }
}

pub fn valid_date(month: u8, year: u8, x: u8) -> bool
    ensures { result ≡ valid_date month year x }
{
    dates(month, year).is_valid(x)
}

// K10, K11. Day and date move together; the month waits for the date's carry, the year for the month's. Nothing waits for the day's.
#[tactic(auto, unfolding(crate::specs::Date::next_date))]
pub fn next_date(d: Date) -> Step<Date>
    ensures { result ≡ next_date d }
{
    let day = DAYS.next(d.day);
    let date = dates(d.month, d.year).next(d.date);
    let month = on_carry(date.carry, d.month, MONTHS.next(d.month));
    let year = on_carry(month.carry, d.year, YEARS.next(d.year));
    let value = Date {
        day: day.value,
        date: date.value,
        month: month.value,
        year: year.value,
    };
    Step {
        value,
        carry: year.carry,
    }
}

// The eight stored bytes.

#[tactic(auto, unfolding(crate::specs::Time::date_of))]
pub fn date_of(t: Time) -> Date
    ensures { result ≡ date_of t }
{
    Date {
        day: DAYS.of(t.day),
        date: DATES.of(t.date),
        month: MONTHS.of(t.month),
        year: t.year,
    }
}

// K9. What stands beside the fields stays.
#[tactic(auto, unfolding(crate::specs::Time::with_date))]
pub fn with_date(t: Time, d: Date) -> Time
    ensures { result ≡ with_date t d }
{
    Time {
        day: DAYS.beside(t.day, d.day),
        date: DATES.beside(t.date, d.date),
        month: MONTHS.beside(t.month, d.month),
        year: d.year,
        ..t
    }
}

// K10. The date moves only where the hours carried.
#[tactic(auto, unfolding(crate::specs::Time::on_day))]
fn on_day(carry: bool, t: Time) -> Time
    ensures { result ≡ on_day carry t }
{
    if carry {
        return with_date(t, next_date(date_of(t)).value);
    }
    t
}

// K10. One advance of the hundredths.
#[tactic(auto, unfolding(crate::specs::Time::advanced))]
pub fn advance(t: Time) -> Advanced
    ensures { result ≡ advanced t }
{
    let hundredths = HUNDREDTHS.next(t.hundredths);
    let seconds = on_carry(hundredths.carry, t.seconds, SECONDS.next_beside(t.seconds));
    let minutes = on_carry(seconds.carry, t.minutes, MINUTES.next_beside(t.minutes));
    let hours = on_carry(minutes.carry, t.hours, next_hours(t.hours));
    let clock = Time {
        hundredths: hundredths.value,
        seconds: seconds.value,
        minutes: minutes.value,
        hours: hours.value,
        ..t
    };
    Advanced {
        time: on_day(hours.carry, clock),
        seconds: hundredths.carry,
        minutes: seconds.carry,
        hours: minutes.carry,
        days: hours.carry,
    }
}
