// The table of the saved form: of each row its lines and widths, and whether a number is good at a place, by those before it.
ghost use Rattle.std.specs.Prelude.{◌≡◌, ◌+◌, ◌<◌, ◌≤◌, [], ◌∷◌, ltb, eqb, length, get_or};
ghost use Rattle.base.specs.Words.{pick, bit};
ghost use Rattle.record.specs.Part.{size_of, id_size, boots_of};
ghost use Rattle.record.specs.Registers.{event_at, period_of};
ghost use Rattle.record.specs.Numbers.{stage_of};
ghost use Rattle.record.specs.Stages.{foreign_to_wip};
ghost use Rattle.form.specs.Table.{register_in, chip_events, register_good, startup_by, mark_by, kind_by, case_limit, case_good, address_limit, value_limit, target_limit, left_by, edges_by, since_by, debounce_by, stage_good, target_good};
ghost use Rattle.numbers.specs.declared.table.Row.TheVariants.{Reg};
ghost use Rattle.numbers.specs.Tables.{row_of};

use detect::control;
use record::numbered::Numbered;
use record::{ClockAddress, Code, Stage, part, registers};

// How many numbers a part of 2 Kbit has.
pub const NUMBERS: usize = 400;

// A row of the table by its key, in the table's order.
#[derive(Clone, Copy, PartialEq, Eq)]
pub enum Row {
    Part,
    Reg,
    Sram,
    Divider,
    Startup,
    Watchdog,
    Delay,
    Pulse,
    Power,
    Mark,
    Wel,
    Bp,
    Lock,
    Stage,
    Offsets,
    Load,
    Next,
    Target,
    Left,
    Ee,
    Id,
    Evls,
    Evhs,
    Edges,
    Since,
    Debounce,
}

// The rows in their order.
pub const ROWS: [Row; 26] = [
    Row::Part,
    Row::Reg,
    Row::Sram,
    Row::Divider,
    Row::Startup,
    Row::Watchdog,
    Row::Delay,
    Row::Pulse,
    Row::Power,
    Row::Mark,
    Row::Wel,
    Row::Bp,
    Row::Lock,
    Row::Stage,
    Row::Offsets,
    Row::Load,
    Row::Next,
    Row::Target,
    Row::Left,
    Row::Ee,
    Row::Id,
    Row::Evls,
    Row::Evhs,
    Row::Edges,
    Row::Since,
    Row::Debounce,
];

// How many cases a stage has, by its kind.
const CASES: [u64; 8] = [1, 1, 1, 256, 3, 3, 4, 6];

#[tactic(auto, unfolding(crate::specs::Tables::row_at, form::specs::Table::rows, form::specs::Table::part_row, form::specs::Table::register_row, form::specs::Table::sram_row, form::specs::Table::divider_row, form::specs::Table::startup_row, form::specs::Table::watchdog_row, form::specs::Table::delay_row, form::specs::Table::pulse_row, form::specs::Table::power_row, form::specs::Table::mark_row, form::specs::Table::wel_row, form::specs::Table::protection_row, form::specs::Table::lock_row, form::specs::Table::stage_row, form::specs::Table::offsets_row, form::specs::Table::load_row, form::specs::Table::next_row, form::specs::Table::target_row, form::specs::Table::left_row, form::specs::Table::eeprom_row, form::specs::Table::id_row, form::specs::Table::evls_row, form::specs::Table::evhs_row, form::specs::Table::edges_row, form::specs::Table::since_row, form::specs::Table::debounce_row))]
impl Row {
    // How many numbers are on a line of the row.
    pub fn width(self) -> usize
        ensures { result ≡ (row_of self).width }
    {
        match self {
            Row::Sram | Row::Load | Row::Ee | Row::Id => 8,
            Row::Stage => 3,
            Row::Target => 2,
            _ => 1,
        }
    }

    // How many lines the row has, by the part.
    pub fn lines(self, part: u64) -> usize
        ensures { result ≡ (row_of self).lines (part ∷ []) }
    {
        match self {
            Row::Reg => 32,
            Row::Sram => 8,
            Row::Ee => (part::size(part) / 8) as usize,
            Row::Id => 2,
            _ => 1,
        }
    }

    // Whether n is good as number j of the row, after the numbers of the list; those that have not come are 0.
    pub fn good(self, numbers: &[u64; NUMBERS], j: usize, n: u64) -> bool
        requires { self ≡ Reg → j < 32 }
        ensures { result ≡ (row_of self).good numbers.now j n }
    {
        match self {
            Row::Part => part::is_part(n),
            Row::Reg => register_good(j, n),
            Row::Divider => n < 32768,
            Row::Startup => n < startup_limit(numbers[0], numbers[2]),
            Row::Watchdog => n < period(numbers[11]),
            Row::Delay => n < 2097153,
            Row::Pulse => n < 4097,
            Row::Mark => n < mark_limit(numbers[102]),
            Row::Bp => n < 4,
            Row::Lock => n < 3,
            Row::Stage => stage_good(numbers, j, n),
            Row::Next => n < 8,
            Row::Target => target_good(numbers, j, n),
            Row::Left => n < left_limit(numbers[102], numbers[107], numbers[108]),
            Row::Edges => n < edges_limit(numbers[12]),
            Row::Since => since_good(numbers, n),
            Row::Debounce => debounce_good(numbers, n),
            Row::Power | Row::Wel | Row::Evls | Row::Evhs => n < 2,
            Row::Sram | Row::Offsets | Row::Load | Row::Ee | Row::Id => n < 256,
        }
    }
}

// A register's byte: no bit outside its mask.
fn register_good(j: usize, n: u64) -> bool
    requires { j < 32 }
    ensures { result ≡ register_good j n }
{
    match u8::try_from(n) {
        Ok(b) => (b & registers::kept_bits(ClockAddress(j as u8))) == b,
        Err(_) => false,
    }
}

// By the part and the byte of 01h.
pub fn startup_limit(part: u64, seconds: u64) -> u64
    ensures { result ≡ startup_by (boots_of part) (bit seconds 7) }
{
    let runs = part::boots(part) | (seconds / 128 % 2 == 1);
    if runs { 33 } else { 1 }
}

// By the number of power. Kept beside `kind_limit`, as `address_limit` beside `target_limit`: each is a row of the form with a definition of its own.
pub fn mark_limit(power: u64) -> u64
    ensures { result ≡ mark_by (eqb power 1) }
{
    if power == 1 { 1 } else { 2 }
}

pub fn kind_limit(power: u64) -> u64
    ensures { result ≡ kind_by (eqb power 1) }
{
    if power == 1 { 8 } else { 1 }
}

pub fn period(v: u64) -> u64
    ensures { result ≡ period_of v }
{
    registers::period((v % 8) as u8) as u64
}

// Kinds and cases are numbers here: they are judged before it is known that they are any.
// A number as a byte; FFh, which is the number of no kind and no case, for one that is none.
fn byte_of(n: u64) -> u8
    ensures { result ≡ pick (ltb n 256) n 255 }
{
    u8::try_from(n).unwrap_or(255)
}

// A frame that is not heard while a cycle runs, by the kind and the case of its stage.
fn foreign(kind: u64, which: u64) -> bool
    ensures { result ≡ foreign_to_wip (stage_of kind which 0) }
{
    let stage = Stage::from(Numbered {
        kind: byte_of(kind),
        which: byte_of(which),
        value: 0,
    });
    stage.foreign_to_wip()
}

fn case_limit(kind: u64) -> u64
    ensures { result ≡ case_limit kind }
{
    CASES.get(kind as usize).copied().unwrap_or(1)
}

pub fn case_good(kind: u64, n: u64) -> bool
    ensures { result ≡ case_good kind n }
{
    let b = byte_of(n);
    (n < case_limit(kind)) & ((kind != 3) | (u8::from(Code::from(b)) == b))
}

fn address_limit(size: u64, memory: u64) -> u64
    ensures { result ≡ address_limit size memory }
{
    match memory {
        0 => size,
        1 => 256,
        _ => 16,
    }
}

pub fn value_limit(size: u64, kind: u64, which: u64) -> u64
    ensures { result ≡ value_limit size kind which }
{
    if (kind == 4) | (kind == 5) {
        return address_limit(size, which);
    }
    if (kind == 6) & (which < 2) {
        return 256;
    }
    1
}

fn stage_good(numbers: &[u64; NUMBERS], j: usize, n: u64) -> bool
    ensures { result ≡ stage_good numbers.now j n }
{
    match j {
        0 => n < kind_limit(numbers[102]),
        1 => case_good(numbers[107], n),
        _ => n < value_limit(part::size(numbers[0]) as u64, numbers[107], numbers[108]),
    }
}

pub fn target_limit(size: u64, kind: u64) -> u64
    ensures { result ≡ target_limit size kind }
{
    match kind {
        0 => size,
        1 => 16,
        _ => 4,
    }
}

fn target_good(numbers: &[u64; NUMBERS], j: usize, n: u64) -> bool
    ensures { result ≡ target_good numbers.now j n }
{
    match j {
        0 => n < 3,
        _ => n < target_limit(part::size(numbers[0]) as u64, numbers[120]),
    }
}

// By power, and by the kind and the case of the stage.
pub fn left_limit(power: u64, kind: u64, which: u64) -> u64
    ensures { result ≡ left_by (eqb power 1) (foreign_to_wip (stage_of kind which 0)) }
{
    let open = (power == 1) & !foreign(kind, which);
    if open { 165 } else { 1 }
}

// By the byte of 0Bh.
pub fn edges_limit(v: u64) -> u64
    ensures { result ≡ edges_by v }
{
    if v / 32 % 2 == 1 {
        return control::number((v % 4) as u8) as u64;
    }
    1
}

// By the edges counted.
pub fn since_limit(edges: u64) -> u64
    ensures { result ≡ since_by edges }
{
    if 0 < edges { 8193 } else { 1 }
}

// By the byte of 0Bh and the level of EVLS.
pub fn debounce_limit(v: u64, level: u64) -> u64
    ensures { result ≡ debounce_by v level }
{
    let runs = (v / 16 % 2 == 1) & (0 < level);
    if runs {
        return control::debounce_ticks((v % 8) as u8) as u64 + 1;
    }
    1
}

// The first place of the event inputs.
pub fn events_from(part: u64) -> usize
    ensures value { result ≡ 123 + size_of part + id_size }
    ensures upper_bound { result ≤ 395 }
{
    123 + part::size(part) as usize + 16
}

fn since_good(numbers: &[u64; NUMBERS], n: u64) -> bool
    ensures { result ≡ ltb n (since_by (get_or numbers.now (chip_events numbers.now + 2) 0)) }
{
    let from = events_from(numbers[0]);
    n < since_limit(numbers[from + 2])
}

fn debounce_good(numbers: &[u64; NUMBERS], n: u64) -> bool
    ensures { result ≡ ltb n (debounce_by (register_in numbers.now event_at) (get_or numbers.now (chip_events numbers.now) 0)) }
{
    let from = events_from(numbers[0]);
    n < debounce_limit(numbers[12], numbers[from])
}
