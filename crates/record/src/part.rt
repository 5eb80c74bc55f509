// The four parts: 1 W 1K, 2 W 2K, 3 B 1K, 4 B 2K.
// Kept as a number: an act may bring any, and the table refuses what is no part (A33); the definitions answer for each.
ghost use Rattle.std.specs.Prelude.{◌≡◌};
ghost use Rattle.record.specs.Part.{is_part, top_of, size_of, boots_of};

use crate::EepromAddress;

// The ID memory has 16 bytes.
pub const ID_SIZE: u8 = 16;

pub const ID_LAST: u8 = ID_SIZE - 1;

pub fn is_part(part: u64) -> bool
    ensures { result ≡ is_part part }
{
    matches!(part, 1..=4)
}

// The top address of the EEPROM: 7Fh of 1 Kbit, FFh of 2 Kbit.
pub fn top(part: u64) -> EepromAddress
    ensures { result.0 ≡ top_of part }
{
    if part % 2 == 1 {
        EepromAddress(0x7f)
    } else {
        EepromAddress(0xff)
    }
}

// The EEPROM's length in bytes.
pub fn size(part: u64) -> u16
    ensures { result ≡ size_of part }
{
    top(part).0 as u16 + 1
}

// A B part asks its oscillator to run always, a W part by ST.
pub fn boots(part: u64) -> bool
    ensures { result ≡ boots_of part }
{
    3 <= part
}
