#![tactic(auto)]

// What a line answers. The EEPROM is lent as the 256 bytes of the largest part; a 1 Kbit part has the first 128, and leaves the others alone.
mod progress; // progress.rt: a tape between two lines

ghost use Rattle.std.specs.Prelude.{◌≡◌, ◌+◌, ◌≤◌, length};
ghost use Rattle.text.specs.Buffer.{buffer};
ghost use Rattle.lines.specs.Print.{answer_room};
ghost use Rattle.answers.specs.Answer.{part_answer, act_answer, line_answer, setup_in, held_by, shown_in, shown_by};
ghost use Rattle.answers.specs.Ready.{ready};

use lines::Request;
pub use progress::Progress;
use record::{Act, Device};
use refusals::Refusal;

// The bytes of the largest EEPROM, and those of the ID.
pub const EEPROM_ROOM: usize = 256;

pub const ID_SIZE: usize = record::part::ID_SIZE as usize;

// T18. The number of a line that names an act where there is no part yet, or a part where there is one; no byte of it is to blame.
const MISPLACED: u8 = 74;

// A tape may go on with this part and record: there is no part, or one of the four with a record in range.
#[tactic(auto, unfolding(crate::specs::Ready::ready))]
pub fn is_ready(part: u64, d: Device) -> bool
    ensures { result ≡ ready part d }
{
    let size = record::part::size(part) as usize;
    (part == 0) | refusals::setup_refusal(part, d, size, ID_SIZE).is_ok()
}

// The three that follow ask for room for an answer: a buffer is lent in any length, and its place moves on, so no type says it (D230).
// T6, T7. A line `op=part`: the first of a part that there is makes a fresh chip.
// Memories and buffer stay parameters here and below (D230).
fn part_line(
    arg: u64,
    p: Progress,
    eeprom: &mut [u8; EEPROM_ROOM],
    id: &mut [u8; ID_SIZE],
    into: &mut [u8],
) -> Progress
    requires { p.at + answer_room ≤ length into.old }
    ensures { shown_by result eeprom.new id.new into.new
        ≡ shown_in (held_by p eeprom.old id.old) (buffer into.old p.at)
        (part_answer arg (setup_in (held_by p eeprom.old id.old))) }
{
    if p.part != 0 {
        return p.told(MISPLACED, Some(0), into);
    }
    if !record::part::is_part(arg) {
        return p.told(Refusal::Argument as u8, None, into);
    }
    let size = record::part::size(arg) as usize;
    acts::page::erase(&mut eeprom[..size]);
    acts::page::erase(id);
    let fresh = Progress {
        part: arg,
        device: record::fresh_device(),
        at: p.at,
    };
    fresh.told(0, None, into)
}

// T6. A line of an act.
fn act_line(
    act: Act,
    arg: u64,
    p: Progress,
    eeprom: &mut [u8; EEPROM_ROOM],
    id: &mut [u8; ID_SIZE],
    into: &mut [u8],
) -> Progress
    requires { p.at + answer_room ≤ length into.old }
    ensures { shown_by result eeprom.new id.new into.new
        ≡ shown_in (held_by p eeprom.old id.old) (buffer into.old p.at)
        (act_answer act arg (setup_in (held_by p eeprom.old id.old))) }
{
    if p.part == 0 {
        return p.told(MISPLACED, Some(0), into);
    }
    let size = record::part::size(p.part) as usize;
    match acts::perform_in_range(p.part, act, arg, p.device, &mut eeprom[..size], id) {
        Ok(a) => {
            let out = codec::print::out_of(0, act, a.reply, a.count);
            let next = Progress {
                part: p.part,
                device: a.device,
                at: p.at,
            };
            next.told(0, out, into)
        }
        Err(refusal) => p.told(u8::from(refusal), None, into),
    }
}

// A line's answer.
#[tactic(auto, unfolding(crate::specs::Answer::line_answer))]
pub fn answer_line(
    line: &[u8],
    p: Progress,
    eeprom: &mut [u8; EEPROM_ROOM],
    id: &mut [u8; ID_SIZE],
    into: &mut [u8],
) -> Progress
    requires { p.at + answer_room ≤ length into.old }
    ensures { shown_by result eeprom.new id.new into.new
        ≡ shown_in (held_by p eeprom.old id.old) (buffer into.old p.at)
        (line_answer line.now (setup_in (held_by p eeprom.old id.old))) }
{
    match codec::line::request(line) {
        Ok(Request::Part(arg)) => part_line(arg, p, eeprom, id, into),
        Ok(Request::Act(act, arg)) => act_line(act, arg, p, eeprom, id, into),
        Err(fault) => p.told(fault.number(), Some(fault.column()), into),
    }
}
