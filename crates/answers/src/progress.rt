// A tape between two lines, and the line of an answer with the levels after it.
ghost use Rattle.std.specs.Prelude.{◌≡◌, true};
ghost use Rattle.answers.specs.Ready.{ready};

use record::Device;

// How far a tape has come: its part, the chip's record, and the place in the output. The tape may go on with this part and record. The part is a number,
// 0 while none is accepted: definitions and acts have it so, and a tape that anyone brings may have any.
#[derive(Clone, Copy)]
pub struct Progress {
    pub part: u64,
    pub device: Device,
    pub at: usize,
    pub ghost goes: { ready part device ≡ true },
}

impl Progress {
    ghost use Rattle.std.specs.Prelude.{List, ℕ, ◌+◌, ◌≤◌, length};
    ghost use Rattle.text.specs.Buffer.{buffer};
    ghost use Rattle.lines.specs.Print.{answer_room};
    ghost use Rattle.answers.specs.Answer.{level_high, held_by, shown_by, line_in};

    // T9. A level is high without a part, and where the chip does not hold it low.
    fn high(self, low: bool) -> bool
        ensures { result ≡ level_high self.part low }
    {
        (self.part == 0) | !low
    }

    // Puts an answer's line, whatever the memories hold.
    // The number is what the line shows (D227); room is asked as in `answers` (D230).
    pub(crate) fn told(self, number: u8, out: Option<u64>, into: &mut [u8]) -> Progress
        requires { self.at + answer_room ≤ length into.old }
        ensures { (ee id : List ℕ) → shown_by result ee id into.new
            ≡ line_in (held_by self ee id) (buffer into.old self.at) number out }
    {
        let device = self.device;
        let irq = self.high(ticks::lines::irq_low(device));
        let wdo = self.high(ticks::lines::wdo_low(device));
        let at = codec::print::put_answer(number, out, irq, wdo, into, self.at);
        Progress {
            part: self.part,
            device,
            at,
        }
    }
}
