#![tactic(auto)]

// A chip as a list of numbers: the table of the saved form; and the whole list.
ghost use Rattle.std.specs.Prelude.{◌≡◌};
ghost use Rattle.record.specs.Numbers.{reply_number};

pub mod chip; // chip.rt: the whole list, and back
pub mod table; // table.rt: lines, widths, and which numbers are good

// A driven byte by its value, or 256, which no byte is.
// A function: `From` of an `Option` is not ours to write.
pub fn reply_number(reply: Option<u8>) -> u16
    ensures { result ≡ reply_number reply }
{
    reply.map_or(256, u16::from)
}
