// A tape as it comes, chunk by chunk. Lent to each call: 65 bytes for the head of a line that has not ended, the 256 bytes of the largest
// EEPROM, the 16 ID bytes, and the buffer for the answers.
ghost use Rattle.std.specs.Prelude.{◌≡◌, ◌++◌, ◌+◌, ◌≤◌, length, take};
ghost use Rattle.base.specs.Words.{over};
ghost use Rattle.text.specs.Buffer.{buffer};
ghost use Rattle.lines.specs.Print.{answer_room};
ghost use Rattle.answers.specs.Answer.{line_answer, setup_in, held_by, shown_in, shown_by};
ghost use Rattle.tape.specs.Tape.{head, head_limit, finished, put_into, taken_from, tape_of, loan, state_in, gives, feed_into, finish_into, given_by, start_tape, resumed_tape, Typed};

use crate::{Feed, Tape};
use answers::Progress;
use codec::print;
use record::Device;
use text::{buffer, bytes};

// T3. The head of a line: one character more than it may have tells that it is too long.
pub const HEAD_LIMIT: usize = codec::line::LINE_LIMIT + 1;

// The bytes of the largest EEPROM, and those of the ID.
pub const EEPROM_ROOM: usize = answers::EEPROM_ROOM;

pub const ID_SIZE: usize = answers::ID_SIZE;

// A tape before its first line.
pub fn start() -> Tape
    ensures { result ≡ start_tape }
{
    Tape {
        part: 0,
        device: record::fresh_device(),
        begun: 0,
    }
}

// A tape that begins with a chip that is there: its part and record, and the memories that are lent to each call. A part that is none, a record out
// of range and memories of other sizes than a tape is lent are no chip: the tape then begins without a part.
// Anyone calls it: slices of any length (D229).
#[tactic(auto, unfolding(crate::specs::Tape::resumes))]
pub fn resume(part: u64, device: Device, eeprom: &[u8], id: &[u8]) -> Tape
    ensures value { result ≡ resumed_tape part device (length eeprom.now) (length id.now) }
    ensures typed { Typed device eeprom.now id.now }
{
    let fit = (eeprom.len() == EEPROM_ROOM) & (id.len() == ID_SIZE);
    if (part != 0) & answers::is_ready(part, device) & fit {
        return Tape {
            part,
            device,
            begun: 0,
        };
    }
    start()
}

// Adds a piece to the head of a line, as far as the head goes, and answers how long the head is.
// That the head is short stays a clause here and below: one inequality on a number that anyone's tape brings.
fn add_to_head(piece: &[u8], line: &mut [u8; HEAD_LIMIT], begun: usize) -> usize
    requires { begun ≤ head_limit }
    ensures { (result ≡ length (head (take begun line.old ++ piece.now)))
        × (line.new ≡ over (head (take begun line.old ++ piece.now)) line.old) }
{
    let n = buffer::room(HEAD_LIMIT, begun);
    buffer::put(bytes::first(piece, n), line, begun)
}

// The answer to a line: its head, if it has one, and its last piece. The two are put together in an array of its own, so that the lent
// bytes of the line stay as they are.
#[tactic(auto, using(crate::proofs::TapeLaws::head_answers))]
fn end_line(
    piece: &[u8],
    begun: usize,
    line: &[u8; HEAD_LIMIT],
    p: Progress,
    eeprom: &mut [u8; EEPROM_ROOM],
    id: &mut [u8; ID_SIZE],
    into: &mut [u8],
) -> Progress
    requires head_in_bounds { begun ≤ head_limit }
    requires answer_room_in_bounds { p.at + answer_room ≤ length into.old }
    ensures { shown_by result eeprom.new id.new into.new
        ≡ shown_in (held_by p eeprom.old id.old) (buffer into.old p.at)
        (line_answer (head (take begun line.now ++ piece.now)) (setup_in (held_by p eeprom.old id.old))) }
{
    if begun == 0 {
        return answers::answer_line(piece, p, eeprom, id, into);
    }
    let mut whole = *line;
    let n = add_to_head(piece, &mut whole, begun);
    answers::answer_line(bytes::first(&whole, n), p, eeprom, id, into)
}

// What a chunk gave: how far the tape has come, how long the head of a line is, and how many bytes were taken.
fn feed_of(p: Progress, begun: usize, taken: usize) -> Feed
    ensures { result ≡ record { tape = tape_of p begun; taken = taken; at = p.at } }
{
    Feed {
        tape: Tape {
            part: p.part,
            device: p.device,
            begun,
        },
        taken,
        at: p.at,
    }
}

// A chunk of a tape, line by line.
fn feed_lines(
    chunk: &[u8],
    before: Progress,
    head: usize,
    line: &mut [u8; HEAD_LIMIT],
    eeprom: &mut [u8; EEPROM_ROOM],
    id: &mut [u8; ID_SIZE],
    into: &mut [u8],
) -> Feed
    requires { head ≤ head_limit }
    ensures { given_by result line.new eeprom.new id.new into.new
        ≡ gives (loan (tape_of before head) line.old eeprom.old id.old)
        (taken_from (state_in (loan (tape_of before head) line.old eeprom.old id.old)) chunk.now (buffer into.old before.at)) }
{
    let mut p = before;
    let mut begun = head;
    let mut rest = chunk;
    while let Some(n) = rest.iter().position(|b| *b == b'\n') {
        if buffer::room(into.len(), p.at) < print::ANSWER_ROOM {
            let more = add_to_head(&rest[..n], line, begun);
            return feed_of(p, more, chunk.len() - rest.len() + n);
        }
        p = end_line(&rest[..n], begun, line, p, eeprom, id, into);
        begun = 0;
        rest = &rest[n + 1..];
    }
    let more = add_to_head(rest, line, begun);
    feed_of(p, more, chunk.len())
}

// The end of a tape, where its answer has room.
fn finish_line(
    p: Progress,
    begun: usize,
    line: &[u8; HEAD_LIMIT],
    eeprom: &mut [u8; EEPROM_ROOM],
    id: &mut [u8; ID_SIZE],
    into: &mut [u8],
) -> Feed
    requires head_in_bounds { begun ≤ head_limit }
    requires answer_room_in_bounds { p.at + answer_room ≤ length into.old }
    ensures { given_by result line.now eeprom.new id.new into.new
        ≡ gives (loan (tape_of p begun) line.now eeprom.old id.old)
        (put_into (buffer into.old p.at) 0 (finished (state_in (loan (tape_of p begun) line.now eeprom.old id.old)))) }
{
    if begun == 0 {
        return feed_of(p, 0, 0);
    }
    let ended = answers::answer_line(bytes::first(line, begun), p, eeprom, id, into);
    feed_of(ended, 0, 0)
}

// The door stands in both calls: a function that hands out the three references would have to promise of each that it is still the one lent (D230).
// The answers to a chunk, put into a buffer from a place on. It stops before a newline whose answer may not have room, and answers how many
// bytes it took. What is lent and not used stays as it was. Where it is no tape, nothing is taken or changed.
// Anyone calls it: slices of any length (D229).
#[tactic(auto, unfolding(crate::specs::Tape::feed_into, crate::specs::Tape::is_tape, crate::specs::Tape::buffers_fit))]
pub fn feed(
    chunk: &[u8],
    tape: Tape,
    line: &mut [u8],
    eeprom: &mut [u8],
    id: &mut [u8],
    into: &mut [u8],
    at: usize,
) -> Feed
    ensures { given_by result line.new eeprom.new id.new into.new
        ≡ feed_into (loan tape line.old eeprom.old id.old) chunk.now (buffer into.old at) }
{
    let part = tape.part;
    let device = tape.device;
    let unfed = Feed { tape, taken: 0, at };
    let Some(line) = line.as_mut_array() else {
        return unfed
    };
    let Some(eeprom) = eeprom.as_mut_array() else {
        return unfed
    };
    let Some(id) = id.as_mut_array() else {
        return unfed
    };
    if (tape.begun <= HEAD_LIMIT) & answers::is_ready(part, device) {
        let p = Progress { part, device, at };
        return feed_lines(chunk, p, tape.begun, line, eeprom, id, into);
    }
    unfed
}

// The answer to a last line that has no newline. Where it is no tape or the answer has no room, nothing is changed.
// Anyone calls it: slices of any length (D229).
#[tactic(auto, unfolding(crate::specs::Tape::finish_into, crate::specs::Tape::is_tape, crate::specs::Tape::buffers_fit))]
pub fn finish(
    tape: Tape,
    line: &mut [u8],
    eeprom: &mut [u8],
    id: &mut [u8],
    into: &mut [u8],
    at: usize,
) -> Feed
    ensures { given_by result line.new eeprom.new id.new into.new
        ≡ finish_into (loan tape line.old eeprom.old id.old) (buffer into.old at) }
{
    let part = tape.part;
    let device = tape.device;
    let unfed = Feed { tape, taken: 0, at };
    let Some(line) = line.as_mut_array() else {
        return unfed
    };
    let Some(eeprom) = eeprom.as_mut_array() else {
        return unfed
    };
    let Some(id) = id.as_mut_array() else {
        return unfed
    };
    let has_room = print::ANSWER_ROOM <= buffer::room(into.len(), at);
    if (tape.begun <= HEAD_LIMIT) & answers::is_ready(part, device) & has_room {
        let p = Progress { part, device, at };
        return finish_line(p, tape.begun, line, eeprom, id, into);
    }
    unfed
}
