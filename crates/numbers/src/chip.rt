// A chip with its memories as one list of numbers, and the chip of a list.
ghost use Rattle.std.specs.Prelude.{◌≡◌, [], ◌∷◌, ◌++◌, ◌+◌, ◌<◌, ◌≤◌, eqb, length, take, drop, get_or};
ghost use Rattle.base.specs.Words.{flag};
ghost use Rattle.record.specs.Numbers.{stage_value};
ghost use Rattle.record.specs.World.{world};
ghost use Rattle.text.specs.Buffer.{buffer, append};
ghost use Rattle.form.specs.Table.{stage_in};
ghost use Rattle.form.specs.Chip.{count_numbers, guard_numbers, stage_numbers, head_numbers, tail_numbers, record_numbers, event_numbers, numbers_of, events_of, device_from, device_of};
ghost use Rattle.form.specs.Facts.{BytesFrom, RecordFacts, EventFacts};
ghost use Rattle.numbers.specs.Tables.{number_limit};

use events::Events;
use record::numbered::Numbered;
use record::{Counters, Cycle, Device, Frame, Guard, Load, Lock, Protection, Stage, Target};
use text::buffer;

// Numbers from a place on, as bytes.
// An index: the contract speaks of the places of both lists.
pub fn take_bytes(numbers: &[u64], from: usize, into: &mut [u8])
    requires into_in_bounds { from + length into.old ≤ length numbers.now }
    requires bytes_from { BytesFrom numbers.now from (length into.old) }
    ensures { into.new ≡ take (length into.old) (drop from numbers.now) }
{
    for i in 0..into.len() {
        into[i] = numbers[from + i] as u8;
    }
}

// A list that begins with the numbers of a record.
#[derive(Drop)]
struct RecordNumbers<'a> {
    list: &'a [u64],
    ghost facts: { RecordFacts list.now },
}

impl RecordNumbers<'_> {
    fn bytes<const N: usize>(&self, from: usize) -> [u8; N]
        requires into_in_bounds { from + N ≤ length self.now.list.now }
        requires bytes_from { BytesFrom self.now.list.now from N }
        ensures { result ≡ take N (drop from self.now.list.now) }
    {
        let mut bytes = [0u8; N];
        take_bytes(self.list, from, &mut bytes);
        bytes
    }

    fn counters(&self) -> Counters
        ensures { result ≡ (device_of self.now.list.now).counters }
    {
        let list = self.list;
        Counters {
            divider: list[97] as u16,
            startup: list[98] as u8,
            watchdog: list[99] as u32,
            delay: list[100] as u32,
            pulse: list[101] as u16,
        }
    }

    fn guard(&self) -> Guard
        ensures { result ≡ (device_of self.now.list.now).guard }
    {
        let list = self.list;
        Guard {
            wel: list[104] == 1,
            protection: Protection::from(list[105] as u8),
            lock: Lock::from(list[106] as u8),
        }
    }

    fn stage(&self) -> Stage
        ensures { result ≡ stage_in self.now.list.now }
    {
        let list = self.list;
        Stage::from(Numbered {
            kind: list[107] as u8,
            which: list[108] as u8,
            value: list[109] as u8,
        })
    }

    fn load(&self) -> Load
        ensures { result ≡ (device_of self.now.list.now).load }
    {
        let list = self.list;
        Load {
            offsets: list[110] as u8,
            bytes: self.bytes(111),
            next: list[119] as u8,
        }
    }

    fn cycle(&self) -> Cycle
        ensures { result ≡ (device_of self.now.list.now).cycle }
    {
        let list = self.list;
        Cycle {
            target: Target::from((list[120] as u8, list[121] as u8)),
            left: list[122] as u8,
        }
    }
}

// The event inputs, from a place on.
fn events_of(numbers: &[u64], from: usize) -> Events
    requires event_facts { EventFacts from numbers.now }
    requires from_in_bounds { from + 5 ≤ length numbers.now }
    ensures { result ≡ events_of from numbers.now }
{
    Events {
        door: numbers[from] as u8,
        drum: numbers[from + 1] as u8,
        edges: numbers[from + 2] as u8,
        since: numbers[from + 3] as u16,
        debounce: numbers[from + 4] as u16,
    }
}

// The record of a list that begins with the numbers of one and has its event inputs at a place.
// README names it: its contract stays.
pub fn device_of(numbers: &[u64], from: usize) -> Device
    requires record_facts { RecordFacts numbers.now }
    requires event_facts { EventFacts from numbers.now }
    requires from_in_bounds { from + 5 ≤ length numbers.now }
    ensures { result ≡ device_from from numbers.now }
{
    let begun = RecordNumbers { list: numbers };
    Device {
        regs: begun.bytes(1),
        sram: begun.bytes(33),
        counters: begun.counters(),
        power: numbers[102] == 1,
        mark: numbers[103] == 1,
        guard: begun.guard(),
        frame: Frame {
            stage: begun.stage(),
        },
        load: begun.load(),
        cycle: begun.cycle(),
        events: events_of(numbers, from),
    }
}

// The numbers between SRAM and page load, and after it.
fn head_numbers(d: Device) -> [u64; 14]
    ensures value { result ≡ head_numbers d }
    ensures stage_bound { stage_value d.frame.stage < 256 }
{
    let c = d.counters;
    let guard = d.guard;
    let stage = Numbered::from(d.frame.stage);
    [
        u64::from(c.divider),
        u64::from(c.startup),
        u64::from(c.watchdog),
        u64::from(c.delay),
        u64::from(c.pulse),
        u64::from(d.power),
        u64::from(d.mark),
        u64::from(guard.wel),
        u64::from(u8::from(guard.protection)),
        u64::from(u8::from(guard.lock)),
        u64::from(stage.kind),
        u64::from(stage.which),
        u64::from(stage.value),
        u64::from(d.load.offsets),
    ]
}

fn tail_numbers(load: Load, cycle: Cycle) -> [u64; 4]
    ensures { result ≡ tail_numbers load cycle }
{
    let (kind, value) = cycle.target.into();
    [
        u64::from(load.next),
        u64::from(kind),
        u64::from(value),
        u64::from(cycle.left),
    ]
}

fn event_numbers(e: Events) -> [u64; 5]
    ensures { result ≡ event_numbers e }
{
    [
        u64::from(e.door),
        u64::from(e.drum),
        u64::from(e.edges),
        u64::from(e.since),
        u64::from(e.debounce),
    ]
}

// Bytes put into a list of numbers; the place after them is answered.
// An index: the contract speaks of the places of both lists.
// Buffer and place stay two parameters here and below (D230).
fn put_bytes(from: &[u8], into: &mut [u64], at: usize) -> usize
    requires { at + length from.now ≤ length into.old }
    ensures { buffer into.new result ≡ append (buffer into.old at) from.now }
{
    for i in 0..from.len() {
        into[at + i] = u64::from(from[i]);
    }
    at + from.len()
}

fn put_arrays(regs: [u8; 32], sram: [u8; 64], into: &mut [u64], at: usize) -> usize
    requires { at + length (regs ++ sram) ≤ length into.old }
    ensures { buffer into.new result ≡ append (buffer into.old at) (regs ++ sram) }
{
    let next = put_bytes(&regs, into, at);
    put_bytes(&sram, into, next)
}

fn put_load(load: Load, cycle: Cycle, into: &mut [u64], at: usize) -> usize
    requires { at + length (load.bytes ++ tail_numbers load cycle) ≤ length into.old }
    ensures { buffer into.new result ≡ append (buffer into.old at) (load.bytes ++ tail_numbers load cycle) }
{
    let bytes = load.bytes;
    let tail = tail_numbers(load, cycle);
    let next = put_bytes(&bytes, into, at);
    buffer::put(&tail, into, next)
}

// The record, from its registers to its cycle.
fn put_record(d: Device, into: &mut [u64], at: usize) -> usize
    requires { at + length (record_numbers d) ≤ length into.old }
    ensures result_after { buffer into.new result ≡ append (buffer into.old at) (record_numbers d) }
    ensures stage_bound { stage_value d.frame.stage < 256 }
{
    let regs = d.regs;
    let sram = d.sram;
    let load = d.load;
    let cycle = d.cycle;
    let head = head_numbers(d);
    let arrays = put_arrays(regs, sram, into, at);
    let next = buffer::put(&head, into, arrays);
    put_load(load, cycle, into, next)
}

fn put_memories(eeprom: &[u8], id: &[u8], into: &mut [u64], at: usize) -> usize
    requires { at + length (eeprom.now ++ id.now) ≤ length into.old }
    ensures { buffer into.new result ≡ append (buffer into.old at) (eeprom.now ++ id.now) }
{
    let next = put_bytes(eeprom, into, at);
    put_bytes(id, into, next)
}

// What stands behind the record: the memories, and the event inputs.
fn put_rest(e: Events, eeprom: &[u8], id: &[u8], into: &mut [u64], at: usize) -> usize
    requires { at + length ((eeprom.now ++ id.now) ++ event_numbers e) ≤ length into.old }
    ensures { buffer into.new result ≡ append (buffer into.old at) ((eeprom.now ++ id.now) ++ event_numbers e) }
{
    let numbers = event_numbers(e);
    let next = put_memories(eeprom, id, into, at);
    buffer::put(&numbers, into, next)
}

// All numbers of a chip, from the beginning of the list; how many they are. What a stage carries is a byte.
pub fn numbers_of(part: u64, d: Device, eeprom: &[u8], id: &[u8], into: &mut [u64]) -> usize
    requires { length (numbers_of part (world d eeprom.now id.now)) ≤ length into.old }
    ensures result_after { buffer into.new result ≡ append (buffer into.old 0) (numbers_of part (world d eeprom.now id.now)) }
    ensures stage_bound { stage_value d.frame.stage < 256 }
{
    let events = d.events;
    let begun = buffer::put_one(part, into, 0);
    let next = put_record(d, into, begun);
    put_rest(events, eeprom, id, into, next)
}
