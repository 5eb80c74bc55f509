// Decimals, read and put. Buffer and place stay two parameters (D230).
ghost use Rattle.std.specs.Prelude.{◌≡◌, ◌+◌, ◌≤◌, length, take};
ghost use Rattle.text.specs.Buffer.{buffer, append};
ghost use Rattle.text.specs.Decimal.{needless_zero, digit_value, value_of, read_limit, decimal_text};

use crate::{buffer, bytes};

// The most digits that are read.
const READ_LIMIT: usize = 16;

pub fn needless_zero(s: &[u8]) -> bool
    ensures { result ≡ needless_zero s.now }
{
    matches!(s, [b'0', _, ..])
}

fn digit_value(b: u8) -> u64
    ensures { result ≡ digit_value b }
{
    u64::from(b.saturating_sub(b'0'))
}

// The value of digits; of more than are read, that of the first.
#[tactic(auto, using(crate::proofs::DecimalLaws::bound_none, crate::proofs::DecimalLaws::bound_more, crate::proofs::DecimalLaws::value_more, crate::proofs::DecimalLaws::value_end))]
pub fn value_of(digits: &[u8]) -> u64
    ensures { result ≡ value_of (take read_limit digits.now) }
{
    let mut value: u64 = 0;
    for b in bytes::first(digits, READ_LIMIT) {
        value = value * 10 + digit_value(*b);
    }
    value
}

// The digits of a number: those of its tenth, then the last.
#[tactic(auto, using(crate::proofs::BufferLaws::put_then, crate::proofs::DecimalLaws::decimal_small, crate::proofs::DecimalLaws::decimal_more, crate::proofs::DecimalLaws::decimal_some))]
fn put_digits(n: u64, into: &mut [u8], at: usize) -> usize
    requires { at + length (decimal_text n) ≤ length into.old }
    ensures { buffer into.new result ≡ append (buffer into.old at) (decimal_text n) }
{
    if n < 10 {
        return buffer::put_one(b'0' + (n as u8), into, at);
    }
    let end = put_digits(n / 10, into, at);
    buffer::put_one(b'0' + ((n % 10) as u8), into, end)
}

// A number's decimal. Most numbers that are shown have one digit, and that takes no call.
#[tactic(auto, using(crate::proofs::DecimalLaws::decimal_small, crate::proofs::DecimalLaws::decimal_some))]
pub fn put_decimal(n: u64, into: &mut [u8], at: usize) -> usize
    requires { at + length (decimal_text n) ≤ length into.old }
    ensures { buffer into.new result ≡ append (buffer into.old at) (decimal_text n) }
{
    if n < 10 {
        return buffer::put_one(b'0' + (n as u8), into, at);
    }
    put_digits(n, into, at)
}
