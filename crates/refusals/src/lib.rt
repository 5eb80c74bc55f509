#![tactic(auto)]

// The refusal table: what an act is refused by, in two steps: what is wrong with part, memories and record, and what is wrong with the act. It
// performs nothing.
ghost use Rattle.std.specs.Prelude.{◌≡◌};
ghost use Rattle.refusals.specs.Refusal.{number_of, refusal_number, wrong_length, wrong_arg, wrong_power, wrong_select, memory_refusal, setup_refusal, act_refusal};

use record::registers::WAIT_LIMIT;
use record::{Act, Device, part};

pub mod range; // range.rt: number 6

const ID_LENGTH: usize = part::ID_SIZE as usize;

// Why an act is refused, with the table's number.
#[derive(Clone, Copy, Debug, PartialEq, Eq)]
pub enum Refusal {
    // a select, and the chip is selected
    Selected = 1,
    // a byte or an end, and it is not
    NotSelected = 2,
    // the part, or the act's argument
    Argument = 3,
    // a memory's length
    Length = 4,
    // the act does not go with the power
    Power = 5,
    // the record is out of range
    Range = 6,
}

impl From<Refusal> for u8 {
    ghost from_gives = { λ r n. n ≡ refusal_number r };

    fn from(refusal: Refusal) -> u8 {
        refusal as u8
    }
}

// A memory's length is not the part's.
pub fn wrong_length(part: u64, eeprom: usize, id: usize) -> bool
    ensures { result ≡ wrong_length part eeprom id }
{
    let size = part::size(part) as usize;
    (eeprom != size) | (id != ID_LENGTH)
}

fn wrong_arg(act: Act, arg: u64) -> bool
    ensures { result ≡ wrong_arg act arg }
{
    match act {
        Act::Select | Act::Up => arg != 0,
        Act::Byte | Act::Cut => 255 < arg,
        Act::End => 7 < arg,
        Act::Wait => WAIT_LIMIT < arg,
        Act::Set(_) => 1 < arg,
    }
}

fn wrong_power(act: Act, power: bool) -> bool
    ensures { result ≡ wrong_power act power }
{
    match act {
        Act::Select | Act::Byte | Act::End | Act::Cut => !power,
        Act::Up => power,
        Act::Wait | Act::Set(_) => false,
    }
}

fn wrong_select(act: Act, selected: bool) -> Result<(), Refusal>
    ensures { number_of result ≡ wrong_select act selected }
{
    match act {
        Act::Select if selected => Err(Refusal::Selected),
        Act::Byte | Act::End if !selected => Err(Refusal::NotSelected),
        _ => Ok(()),
    }
}

// What is wrong with the part and the memories' lengths, before any record is seen.
// The part is a number (A33, D235), and two lengths are no struct: it would be made only to be taken apart.
pub fn memory_refusal(part: u64, eeprom: usize, id: usize) -> Result<(), Refusal>
    ensures { number_of result ≡ memory_refusal part eeprom id }
{
    if !part::is_part(part) {
        return Err(Refusal::Argument);
    }
    if wrong_length(part, eeprom, id) {
        return Err(Refusal::Length);
    }
    Ok(())
}

// What is wrong whatever the act is: the part, a memory's length or the record.
#[tactic(auto, unfolding(crate::specs::Refusal::setup_refusal))]
pub fn setup_refusal(part: u64, d: Device, eeprom: usize, id: usize) -> Result<(), Refusal>
    ensures { number_of result ≡ setup_refusal part d eeprom id }
{
    memory_refusal(part, eeprom, id)?;
    if range::out_of_range(part, d) {
        return Err(Refusal::Range);
    }
    Ok(())
}

// What is wrong with an act and its argument.
#[tactic(auto, unfolding(crate::specs::Refusal::act_refusal))]
pub fn act_refusal(act: Act, arg: u64, d: Device) -> Result<(), Refusal>
    ensures { number_of result ≡ act_refusal act arg d }
{
    if wrong_arg(act, arg) {
        return Err(Refusal::Argument);
    }
    if wrong_power(act, d.power) {
        return Err(Refusal::Power);
    }
    wrong_select(act, d.frame.stage.is_selected())
}
