#![tactic(auto)]

// What the next whole exchange of a frame answers, and its first bits. A reply is what is driven on SO, the byte of an exchange or the bits of one
// that an end broke off; or none, where SO is off or no bit was clocked.
ghost use Rattle.std.specs.Prelude.{◌≡◌, ◌<◌, length};
ghost use Rattle.record.specs.Stages.{frame_place, eeprom_pointer, id_pointer};
ghost use Rattle.replies.specs.Reply.{status_byte, reading_reply, reply_at, next_reply, first_bits, leftover_reply};

use record::{Code, Device, Place, Stage};

// STATUS.
fn status(d: Device) -> u8
    ensures { result ≡ status_byte d }
{
    let busy = u8::from(ticks::lines::in_progress(d));
    let enabled = u8::from(d.guard.wel);
    let protected = u8::from(d.guard.protection);
    busy + enabled * 2 + protected * 4
}

fn reading_reply(eeprom: &[u8], id: &[u8], d: Device, place: Place) -> Option<u8>
    requires { (eeprom_pointer place < length eeprom.now) × (id_pointer place < length id.now) }
    ensures { result ≡ reading_reply eeprom.now id.now d place }
{
    match place {
        Place::EepromAt(a) => Some(eeprom[usize::from(a.0)]),
        Place::ClockAt(a) => Some(registers::read::read_clock(d, a)),
        Place::IdAt(a) => Some(id[usize::from(a.0)]),
    }
}

// What the next exchange answers at a stage.
// Two memories and a record: a struct of them would be made for these four alone, whose public two are asked as the acts are.
fn reply_at(eeprom: &[u8], id: &[u8], d: Device, stage: Stage) -> Option<u8>
    requires { (eeprom_pointer (frame_place stage) < length eeprom.now) × (id_pointer (frame_place stage) < length id.now) }
    ensures { result ≡ reply_at eeprom.now id.now d stage }
{
    match stage {
        Stage::Instruction(Code::Srread) => Some(status(d)),
        Stage::Reading(p) => reading_reply(eeprom, id, d, p),
        _ => None,
    }
}

#[tactic(auto, unfolding(crate::specs::Reply::next_reply))]
pub fn next_reply(eeprom: &[u8], id: &[u8], d: Device) -> Option<u8>
    requires { (eeprom_pointer (frame_place d.frame.stage) < length eeprom.now) × (id_pointer (frame_place d.frame.stage) < length id.now) }
    ensures { result ≡ next_reply eeprom.now id.now d }
{
    reply_at(eeprom, id, d, d.frame.stage)
}

// A38, G2. The first k bits of a reply, the most significant first.
// `let else` and no `?`: D87 asks for that form.
fn first_bits(k: u8, reply: Option<u8>) -> Option<u8>
    requires { k < 8 }
    ensures { result ≡ first_bits k reply }
{
    let Some(b) = reply else {
        return None; // SO is off
    };
    if k == 0 {
        return None;
    }
    Some(b >> (8 - k))
}

// A38. What an end with k leftover bits answers.
#[tactic(auto, unfolding(crate::specs::Reply::leftover_reply))]
pub fn leftover_reply(k: u8, eeprom: &[u8], id: &[u8], d: Device) -> Option<u8>
    requires { (k < 8) × (eeprom_pointer (frame_place d.frame.stage) < length eeprom.now) × (id_pointer (frame_place d.frame.stage) < length id.now) }
    ensures { result ≡ leftover_reply k eeprom.now id.now d }
{
    first_bits(k, next_reply(eeprom, id, d))
}
