// An answer's line: `no=`, `out=`, `irq=` and `wdo=`, each with what it shows. The number stays one, since the line shows it (D227); buffer and place stay two
// parameters (D230).
ghost use Rattle.std.specs.Prelude.{◌≡◌, ◌++◌, ◌+◌, ◌≤◌, length};
ghost use Rattle.text.specs.Buffer.{buffer, append};
ghost use Rattle.lines.specs.Print.{shows_count, out_of, out_text, answer_line, out_room, answer_room};

use record::Act;
use text::{buffer, decimal};

// The most bytes that an answer takes.
pub const ANSWER_ROOM: usize = 64;

// A6. A wait's ticks and a cut's count are what its answer shows.
fn shows_count(act: Act) -> bool
    ensures { result ≡ shows_count act }
{
    matches!(act, Act::Wait | Act::Cut)
}

// T8, G2. What the answer to an act shows: none where it is refused, its count, or its reply.
pub fn out_of(number: u8, act: Act, reply: Option<u8>, count: u64) -> Option<u64>
    ensures { result ≡ out_of number act reply count }
{
    if number != 0 {
        return None;
    }
    if shows_count(act) {
        return Some(count);
    }
    let Some(b) = reply else {
        return None;
    };
    Some(u64::from(b))
}

// Puts a word and what it shows.
fn put_field(word: &[u8], out: Option<u64>, into: &mut [u8], at: usize) -> usize
    requires { at + length word.now + out_room ≤ length into.old }
    ensures { (buffer into.new result ≡ append (buffer into.old at) (word.now ++ out_text out))
        × (result ≤ at + length word.now + out_room) }
{
    let a = buffer::put(word, into, at);
    match out {
        Some(n) => decimal::put_decimal(n, into, a),
        None => buffer::put_one(b'z', into, a),
    }
}

// T8. Puts an answer's line at a place, and answers the place after it. The levels are high or not.
pub fn put_answer(
    number: u8,
    out: Option<u64>,
    irq: bool,
    wdo: bool,
    into: &mut [u8],
    at: usize,
) -> usize
    requires { at + answer_room ≤ length into.old }
    ensures { buffer into.new result ≡ append (buffer into.old at) (answer_line number out irq wdo) }
{
    let a = put_field(b"no=", Some(u64::from(number)), into, at);
    let b = put_field(b" out=", out, into, a);
    let c = put_field(b" irq=", Some(u64::from(irq)), into, b);
    let d = put_field(b" wdo=", Some(u64::from(wdo)), into, c);
    buffer::put_one(b'\n', into, d)
}
