// The numbers of the cases of the enums that come from a byte: acts, the protection bits.
ghost use Rattle.std.specs.Prelude.{◌≡◌, ltb, Ok, Err};
ghost use Rattle.base.specs.Words.{pick};
ghost use Rattle.record.specs.Numbers.{act_of, act_count, protection_of, protection_number};

use crate::{Act, Pin, Protection};

// How many acts there are.
pub const ACTS: u8 = 8;

// The acts in their order. It answers for any number; a number that has no act is told by `try_from`.
// Kept: what could not fail still cannot (D234).
pub fn act_of(n: u8) -> Act
    ensures { result ≡ act_of n }
{
    match n {
        0 => Act::Select,
        1 => Act::Byte,
        2 => Act::End,
        3 => Act::Wait,
        4 => Act::Cut,
        5 => Act::Up,
        6 => Act::Set(Pin::Evls),
        _ => Act::Set(Pin::Evhs),
    }
}

// A number that no act has.
#[derive(Clone, Copy, Debug, PartialEq, Eq)]
pub struct NoAct(pub u64);

impl TryFrom<u64> for Act {
    type Error = NoAct;

    ghost try_from_gives = { λ n r. r ≡ pick (ltb n act_count) (Ok (act_of n)) (Err (record { 0 = n })) };

    fn try_from(n: u64) -> Result<Act, NoAct> {
        if n < u64::from(ACTS) {
            return Ok(act_of(n as u8));
        }
        Err(NoAct(n))
    }
}

// BP1 BP0; 3 and more is all.
impl From<u8> for Protection {
    ghost from_gives = { λ n p. p ≡ protection_of n };

    fn from(n: u8) -> Protection {
        match n {
            0 => Protection::Nothing,
            1 => Protection::Quarter,
            2 => Protection::Half,
            _ => Protection::All,
        }
    }
}

impl From<Protection> for u8 {
    ghost from_gives = { λ p n. n ≡ protection_number p };

    fn from(p: Protection) -> u8 {
        match p {
            Protection::Nothing => 0,
            Protection::Quarter => 1,
            Protection::Half => 2,
            Protection::All => 3,
        }
    }
}
