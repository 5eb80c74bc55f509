#![tactic(auto)]

// An act for a caller in another language, on arrays that are the caller's own. C calls it by `calls_c`.
ghost use Rattle.std.specs.Prelude.{◌≡◌};
ghost use Rattle.arrays.specs.Arrays.{arrays};
ghost use Rattle.calls.specs.Calls.{called, acts};

use arrays::{ANSWER, Chip, STATE};
use record::Act;

// One act by its number, with its argument. The answer: the refusal number, whether SO drives, what it drives, the count, both levels.
// Kept with its numbers and slices: C lends and reads them.
pub fn mcp795_act(
    state: &mut [u8],
    eeprom: &mut [u8],
    id: &mut [u8],
    act: u64,
    number: u64,
    answer: &mut [u64; ANSWER],
) -> u64
    ensures { called result answer.new (arrays state.new eeprom.new id.new) ≡ acts (arrays state.old eeprom.old id.old) act number }
{
    let chip = match arrays::chip_of(state, eeprom.len(), id.len()) {
        Ok(chip) => chip,
        Err(refusal) => {
            let refused = u64::from(u8::from(refusal));
            *answer = [refused, 0, 0, 0, 1, 1];
            return refused;
        }
    };
    let part = chip.part;
    let Ok(code) = Act::try_from(act) else {
        arrays::put_answer(3, None, 0, chip.device, answer);
        return 3;
    };
    match acts::perform_in_range(u64::from(part), code, number, chip.device, eeprom, id) {
        Ok(done) => {
            let device = done.device;
            state.copy_from_slice(&<[u8; STATE]>::from(Chip { part, device }));
            arrays::put_answer(0, done.reply, done.count, device, answer);
            0
        }
        Err(refusal) => {
            let refused = u8::from(refusal);
            arrays::put_answer(refused, None, 0, chip.device, answer);
            u64::from(refused)
        }
    }
}
