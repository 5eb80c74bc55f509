#![tactic(auto)]

// The arrays of a caller in another language: a state array judged, read and written; the numbers of an answer.
ghost use Rattle.std.specs.Prelude.{◌≡◌, true, ◌++◌, ◌+◌, ◌≤◌, length, take, drop, IfOk, IfSome, is_some};
ghost use Rattle.refusals.specs.Refusal.{number_of};
ghost use Rattle.form.specs.Chip.{device_of, tail_numbers};
ghost use Rattle.form.specs.State.{count_at, count_bytes, counts_bytes, frame_bytes, event_bytes, array_numbers, is_state, state_of};
ghost use Rattle.arrays.specs.Tests.{outside, clock_bad, frame_bad, events_bad};
ghost use Rattle.arrays.specs.Arrays.{part_of, chip_in, chip_read, arrays_refusal, answer_of};

use events::Events;
use numbers::table;
use record::numbered::Numbered;
use record::registers::POWER_DOWN;
use record::{
    Counters, Cycle, Device, Frame, Guard, Load, Lock, Protection, Stage, Target, part, registers,
};
use refusals::Refusal;

// Bytes of a state array, numbers of an answer.
pub const STATE: usize = 142;

pub const ANSWER: usize = 6;

const STAMPS: usize = POWER_DOWN.0 as usize;

// N bytes from a place on.
fn bytes_at<const N: usize>(state: &[u8; STATE], at: usize) -> [u8; N]
    requires { at + N ≤ 142 }
    ensures { result ≡ take N (drop at state.now) }
{
    let mut bytes = [0u8; N];
    bytes.copy_from_slice(&state[at..at + N]);
    bytes
}

// A count, of its three bytes.
fn count_at(state: &[u8; STATE], at: usize) -> u32
    requires { at + 3 ≤ 142 }
    ensures { result ≡ count_at state.now at }
{
    u32::from_le_bytes([state[at], state[at + 1], state[at + 2], 0])
}

fn count_bytes(n: u32) -> [u8; 3]
    ensures { result ≡ count_bytes n }
{
    let [a, b, c, _] = n.to_le_bytes();
    [a, b, c]
}

// Some register has a bit outside its mask; a time-stamp may hold any. No early way out, so that the compiler takes several at a time.
fn bits_outside(state: &[u8; STATE]) -> bool
    ensures { result ≡ outside state.now }
{
    state[1..1 + STAMPS]
        .iter()
        .zip(registers::WRITABLE.iter())
        .fold(false, |bad, (b, mask)| bad | ((*b & *mask) != *b))
}

// Part, registers and counts.
#[tactic(auto, using(crate::proofs::TestLaws::outside_told), unfolding(crate::specs::Tests::clock_bad))]
fn clock_bad(state: &[u8; STATE]) -> bool
    ensures { result ≡ clock_bad state.now }
{
    let part = u64::from(state[0]);
    let named = part::is_part(part);
    let outside = bits_outside(state);
    let startup = table::startup_limit(part, u64::from(state[2]));
    let period = table::period(u64::from(state[11]));
    !named
        | outside
        | (32768 <= count_at(state, 97))
        | (startup <= u64::from(count_at(state, 100)))
        | (period <= u64::from(count_at(state, 103)))
        | (2097153 <= count_at(state, 106))
        | (4097 <= count_at(state, 109))
}

// Power, latch and lock, the frame, its load, and the cycle.
#[tactic(auto, unfolding(crate::specs::Tests::frame_bad))]
fn frame_bad(state: &[u8; STATE]) -> bool
    ensures { result ≡ frame_bad state.now }
{
    let power = u64::from(state[112]);
    let kind = u64::from(state[117]);
    let which = u64::from(state[118]);
    let target = u64::from(state[130]);
    let size = part::size(u64::from(state[0])) as u64;
    let case = table::case_good(kind, which);
    (2 <= power)
        | (table::mark_limit(power) <= u64::from(state[113]))
        | (2 <= state[114])
        | (4 <= state[115])
        | (3 <= state[116])
        | (table::kind_limit(power) <= kind)
        | !case
        | (table::value_limit(size, kind, which) <= u64::from(state[119]))
        | (8 <= state[129])
        | (3 <= target)
        | (table::target_limit(size, target) <= u64::from(state[131]))
        | (table::left_limit(power, kind, which) <= u64::from(state[132]))
}

// The event inputs.
#[tactic(auto, unfolding(crate::specs::Tests::events_bad))]
fn events_bad(state: &[u8; STATE]) -> bool
    ensures { result ≡ events_bad state.now }
{
    let control = u64::from(state[12]);
    let door = u64::from(state[133]);
    let edges = u64::from(state[135]);
    (2 <= door)
        | (2 <= state[134])
        | (table::edges_limit(control) <= edges)
        | (table::since_limit(edges) <= u64::from(count_at(state, 136)))
        | (table::debounce_limit(control, door) <= u64::from(count_at(state, 139)))
}

// A state array that is a chip's.
#[derive(Clone, Copy)]
struct Held<'a> {
    bytes: &'a [u8; STATE],
    ghost is_state: { is_state bytes.now ≡ true },
}

impl<'a> Held<'a> {
    // None where the array is no chip's.
    fn read(state: &'a [u8]) -> Option<Held<'a>>
        ensures told { is_some result ≡ is_state state.now }
        ensures same { IfSome result (λ held. held.bytes.now ≡ state.now) }
    {
        let Ok(bytes) = <&[u8; STATE]>::try_from(state) else {
            return None;
        };
        if clock_bad(bytes) | frame_bad(bytes) | events_bad(bytes) {
            return None;
        }
        Some(Held { bytes })
    }
}

impl Held<'_> {
    fn counters(&self) -> Counters
        ensures { result ≡ (device_of (array_numbers self.now.bytes.now)).counters }
    {
        let state = self.bytes;
        Counters {
            divider: count_at(state, 97) as u16,
            startup: count_at(state, 100) as u8,
            watchdog: count_at(state, 103),
            delay: count_at(state, 106),
            pulse: count_at(state, 109) as u16,
        }
    }

    fn events(&self) -> Events
        ensures { result ≡ (device_of (array_numbers self.now.bytes.now)).events }
    {
        let state = self.bytes;
        Events {
            door: state[133],
            drum: state[134],
            edges: state[135],
            since: count_at(state, 136) as u16,
            debounce: count_at(state, 139) as u16,
        }
    }

    fn device(&self) -> Device
        ensures { result ≡ device_of (array_numbers self.now.bytes.now) }
    {
        let state = self.bytes;
        Device {
            regs: bytes_at(state, 1),
            sram: bytes_at(state, 33),
            counters: self.counters(),
            power: state[112] == 1,
            mark: state[113] == 1,
            guard: Guard {
                wel: state[114] == 1,
                protection: Protection::from(state[115]),
                lock: Lock::from(state[116]),
            },
            frame: Frame {
                stage: Stage::from(Numbered {
                    kind: state[117],
                    which: state[118],
                    value: state[119],
                }),
            },
            load: Load {
                offsets: state[120],
                bytes: bytes_at(state, 121),
                next: state[129],
            },
            cycle: Cycle {
                target: Target::from((state[130], state[131])),
                left: state[132],
            },
            events: self.events(),
        }
    }

    // Made only once nothing is refused.
    fn chip(&self) -> Chip
        ensures { result ≡ chip_in self.now.bytes.now }
    {
        Chip {
            part: self.bytes[0],
            device: self.device(),
        }
    }
}

// A part's number and a record. Kept with the number: it is the array's first byte, and what asks for a part takes any number.
#[derive(Clone, Copy)]
pub struct Chip {
    pub part: u8,
    pub device: Device,
}

// The chip of a state array that is one's: the table of the saved form has its numbers for part and record.
impl TryFrom<&[u8]> for Chip {
    type Error = Refusal;

    ghost try_from_gives = { λ state r. (r ≡ chip_read state.now) × IfOk r (λ chip. state_of chip.part chip.device ≡ state.now) };

    fn try_from(state: &[u8]) -> Result<Chip, Refusal> {
        let Some(held) = Held::read(state) else {
            return Err(Refusal::Range);
        };
        Ok(held.chip())
    }
}

// The counts between SRAM and what follows.
fn counts_bytes(c: Counters) -> [u8; 15]
    ensures { result ≡ counts_bytes c }
{
    let counts = [
        count_bytes(u32::from(c.divider)),
        count_bytes(u32::from(c.startup)),
        count_bytes(c.watchdog),
        count_bytes(c.delay),
        count_bytes(u32::from(c.pulse)),
    ];
    let mut bytes = [0u8; 15];
    bytes.copy_from_slice(counts.as_flattened());
    bytes
}

fn frame_bytes(d: Device) -> [u8; 9]
    ensures { result ≡ frame_bytes d }
{
    let stage = Numbered::from(d.frame.stage);
    [
        u8::from(d.power),
        u8::from(d.mark),
        u8::from(d.guard.wel),
        u8::from(d.guard.protection),
        u8::from(d.guard.lock),
        stage.kind,
        stage.which,
        stage.value,
        d.load.offsets,
    ]
}

fn cycle_bytes(load: Load, cycle: Cycle) -> [u8; 4]
    ensures { result ≡ tail_numbers load cycle }
{
    let (kind, value) = cycle.target.into();
    [load.next, kind, value, cycle.left]
}

fn event_bytes(e: Events) -> [u8; 9]
    ensures { result ≡ event_bytes e }
{
    let [a, b, c] = count_bytes(u32::from(e.since));
    let [p, q, r] = count_bytes(u32::from(e.debounce));
    [e.door, e.drum, e.edges, a, b, c, p, q, r]
}

// Bytes put at a place; those before it stay.
fn put_at(bytes: &[u8], into: &mut [u8], at: usize)
    requires { at + length bytes.now ≤ length into.old }
    ensures { take (at + length bytes.now) into.new ≡ take at into.old ++ bytes.now }
{
    into[at..at + bytes.len()].copy_from_slice(bytes);
}

// The array of a chip, put where one lies, so that none is made only to be copied.
pub fn put_state(part: u8, d: Device, into: &mut [u8])
    requires { length into.old ≡ 142 }
    ensures { into.new ≡ state_of part d }
{
    into[0] = part;
    put_at(&d.regs, into, 1);
    put_at(&d.sram, into, 33);
    put_at(&counts_bytes(d.counters), into, 97);
    put_at(&frame_bytes(d), into, 112);
    put_at(&d.load.bytes, into, 121);
    put_at(&cycle_bytes(d.load, d.cycle), into, 129);
    put_at(&event_bytes(d.events), into, 133);
}

impl From<Chip> for [u8; STATE] {
    ghost from_gives = { λ chip state. state ≡ state_of chip.part chip.device };

    fn from(chip: Chip) -> [u8; STATE] {
        let mut state = [0u8; STATE];
        put_state(chip.part, chip.device, &mut state);
        state
    }
}

// The first byte, 0 where there is none.
// 0 is no part, so its refusal is 3, as the definition has it.
pub fn part_of(state: &[u8]) -> u8
    ensures { result ≡ part_of state.now }
{
    state.first().copied().unwrap_or(0)
}

// What is wrong with the part, with a memory's length, or that no record in range is there. Kept, two lengths side by side: a struct of them would be made
// only to be taken apart.
pub fn refusal(part: u64, eeprom: usize, id: usize, there: bool) -> Result<(), Refusal>
    ensures { number_of result ≡ arrays_refusal part eeprom id there }
{
    refusals::memory_refusal(part, eeprom, id)?;
    if there { Ok(()) } else { Err(Refusal::Range) }
}

// The chip of the arrays of a caller.
pub fn chip_of(state: &[u8], eeprom: usize, id: usize) -> Result<Chip, Refusal>
    ensures refused { number_of result ≡ arrays_refusal (part_of state.now) eeprom id (is_state state.now) }
    ensures chip { IfOk result (λ chip. chip ≡ chip_in state.now) }
    ensures again { IfOk result (λ chip. state_of chip.part chip.device ≡ state.now) }
{
    let held = Held::read(state);
    refusal(u64::from(part_of(state)), eeprom, id, held.is_some())?;
    match held {
        Some(held) => Ok(held.chip()),
        None => Err(Refusal::Range),
    }
}

// An answer with the levels of a record. Kept with its number: C reads it.
pub fn put_answer(number: u8, reply: Option<u8>, count: u64, d: Device, into: &mut [u64; ANSWER])
    ensures { into.new ≡ answer_of number reply count d }
{
    *into = [
        u64::from(number),
        u64::from(reply.is_some()),
        u64::from(reply.unwrap_or(0)),
        count,
        u64::from(!ticks::lines::irq_low(d)),
        u64::from(!ticks::lines::wdo_low(d)),
    ];
}
