// A line of a tape, without its newline: its pieces, and what it asks for.
ghost use Rattle.std.specs.Prelude.{◌≡◌, ◌≤◌, length};
ghost use Rattle.lines.specs.Line.{line_limit, name_text, after_name, digits_text, in_form, form_reach, name_of, bad_digits, number_column};
ghost use Rattle.lines.specs.Request.{asked, request_of};

use lines::{Fault, Name, Request};
use record::{Act, Pin};
use text::{Kind, bytes, decimal};

// T3. The most characters of a line.
pub const LINE_LIMIT: usize = 64;

// T2. The most digits of its number.
const DIGIT_LIMIT: usize = 8;

// A line that is not too long, cut once: the letters after `op=`, what follows them, and of that the digits after ` arg=` (T5, G9).
#[derive(Clone, Copy)]
struct Pieces<'a> {
    line: &'a [u8],
    name: &'a [u8],
    after: &'a [u8],
    digits: &'a [u8],
    ghost short: { length line.now ≤ line_limit },
    ghost name_cut: { name.now ≡ name_text line.now },
    ghost after_cut: { after.now ≡ after_name line.now },
    ghost digits_cut: { digits.now ≡ digits_text line.now },
}

impl<'a> Pieces<'a> {
    #[tactic(auto, unfolding(lines::specs::Line::name_size, lines::specs::Line::digits_text))]
    fn cut(line: &'a [u8]) -> Pieces<'a>
        requires { length line.now ≤ line_limit }
        ensures { result.line.now ≡ line.now }
    {
        let after_op = bytes::rest(line, 3);
        let size = bytes::leading_of(Kind::Letter, after_op);
        let name = bytes::first(after_op, size);
        let after = bytes::rest(after_op, size);
        let digits = bytes::rest(after, 5);
        Pieces {
            line,
            name,
            after,
            digits,
        }
    }

    #[tactic(auto, using(lines::proofs::LineLaws::name_length), unfolding(lines::specs::Line::in_form))]
    fn in_form(&self) -> bool
        ensures { result ≡ in_form self.now.line.now }
    {
        let op = bytes::agreement(b"op=", self.line);
        let arg = bytes::agreement(b" arg=", self.after);
        let run = bytes::leading_of(Kind::Digit, self.digits);
        (op == 3)
            & (0 < self.name.len())
            & (arg == 5)
            & (0 < self.digits.len())
            & (run == self.digits.len())
    }

    // T13. How far a line goes along with the form.
    #[tactic(auto, using(lines::proofs::LineLaws::name_length, lines::proofs::LineLaws::reach_op, lines::proofs::LineLaws::reach_name, lines::proofs::LineLaws::reach_arg, lines::proofs::LineLaws::reach_digits, lines::proofs::LineLaws::size_within, lines::proofs::LineLaws::arg_within, lines::proofs::LineLaws::run_within))]
    fn form_reach(&self) -> usize
        ensures { result ≡ form_reach self.now.line.now }
    {
        let op = bytes::agreement(b"op=", self.line);
        if op != 3 {
            return op;
        }
        let size = self.name.len();
        if size == 0 {
            return 3;
        }
        let arg = bytes::agreement(b" arg=", self.after);
        if arg != 5 {
            return 3 + (size + arg);
        }
        3 + (size + (5 + bytes::leading_of(Kind::Digit, self.digits)))
    }

    // T15. The column of the first digit where it is a needless zero, else of the first too many.
    #[tactic(auto, using(lines::proofs::LineLaws::name_length), unfolding(lines::specs::Line::number_column))]
    fn number_column(&self) -> usize
        ensures { result ≡ number_column self.now.line.now }
    {
        let first = 3 + self.name.len() + 5 + 1;
        if decimal::needless_zero(self.digits) {
            return first;
        }
        first + DIGIT_LIMIT
    }
}

// T4. The name that a text is.
#[tactic(auto, unfolding(lines::specs::Line::name_of, text::specs::Bytes::found, text::specs::Bytes::agreed))]
fn name_of(s: &[u8]) -> Option<Name>
    ensures { result ≡ name_of s.now }
{
    match s {
        b"part" => Some(Name::Part),
        b"select" => Some(Name::Act(Act::Select)),
        b"byte" => Some(Name::Act(Act::Byte)),
        b"end" => Some(Name::Act(Act::End)),
        b"wait" => Some(Name::Act(Act::Wait)),
        b"cut" => Some(Name::Act(Act::Cut)),
        b"up" => Some(Name::Act(Act::Up)),
        b"evls" => Some(Name::Act(Act::Set(Pin::Evls))),
        b"evhs" => Some(Name::Act(Act::Set(Pin::Evhs))),
        _ => None,
    }
}

fn asked(name: Name, arg: u64) -> Request
    ensures { result ≡ asked name arg }
{
    match name {
        Name::Part => Request::Part(arg),
        Name::Act(act) => Request::Act(act, arg),
    }
}

// T2. A needless zero, or too many digits.
fn bad_digits(s: &[u8]) -> bool
    ensures { result ≡ bad_digits s.now }
{
    decimal::needless_zero(s) | (DIGIT_LIMIT < s.len())
}

// T16. What a line asks for: the first of its faults, else what its name and its number are.
#[tactic(auto, using(lines::proofs::LineLaws::long_asks, lines::proofs::LineLaws::form_asks, lines::proofs::LineLaws::name_asks, lines::proofs::LineLaws::number_asks, lines::proofs::LineLaws::all_asks, lines::proofs::LineLaws::few_digits, lines::proofs::FormLaws::reach_longest))]
pub fn request(line: &[u8]) -> Result<Request, Fault>
    ensures { result ≡ request_of line.now }
{
    if LINE_LIMIT < line.len() {
        return Err(Fault::TooLong);
    }
    let pieces = Pieces::cut(line);
    if !pieces.in_form() {
        return Err(Fault::NotInForm(pieces.form_reach() as u64 + 1));
    }
    let name = name_of(pieces.name).ok_or(Fault::UnknownName)?;
    if bad_digits(pieces.digits) {
        return Err(Fault::BadDigits(pieces.number_column() as u64));
    }
    Ok(asked(name, decimal::value_of(pieces.digits)))
}
