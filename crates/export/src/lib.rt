#![tactic(auto)]

// The chip for a caller in another language, but its acts, which are in `calls`: a fresh chip, its text, and a chip from text. C calls it by `export_c`.
// Kept with its numbers and slices: C lends and reads them.
ghost use Rattle.std.specs.Prelude.{◌≡◌, []};
ghost use Rattle.arrays.specs.Arrays.{arrays};
ghost use Rattle.saved.specs.Answer.{load_line};
ghost use Rattle.calls.specs.Calls.{called, newly, wrote, saves_state, loads_state};

use arrays::STATE;
use refusals::Refusal;
use saved::LoadError;

// A fresh chip of a part. Refused by 3 for a part that is none, by 4 for a memory of another length, by 6 for a state array of another length; then nothing
// changes.
pub fn mcp795_new(part: u64, state: &mut [u8], eeprom: &mut [u8], id: &mut [u8]) -> u64
    ensures { called result [] (arrays state.new eeprom.new id.new) ≡ newly part (arrays state.old eeprom.old id.old) }
{
    if let Err(refusal) = arrays::refusal(part, eeprom.len(), id.len(), state.len() == STATE) {
        return u64::from(u8::from(refusal));
    }
    acts::page::erase(eeprom);
    acts::page::erase(id);
    arrays::put_state(part as u8, record::fresh_device(), state);
    0
}

// The text of a chip, put into the room lent; its length. Refused as an act is, and by 8 where there is too little room; then the length is 0.
pub fn mcp795_save(
    state: &[u8],
    eeprom: &[u8],
    id: &[u8],
    text: &mut [u8],
    length: &mut [u64; 1],
) -> u64
    ensures { wrote result length.new text.new ≡ saves_state (arrays state.now eeprom.now id.now) text.old }
{
    let chip = match arrays::chip_of(state, eeprom.len(), id.len()) {
        Ok(chip) => chip,
        Err(refusal) => {
            *length = [0];
            return u64::from(u8::from(refusal));
        }
    };
    match saved::save(u64::from(chip.part), chip.device, eeprom, id, text) {
        Ok(written) => {
            *length = [written as u64];
            0
        }
        Err(error) => {
            *length = [0];
            u64::from(u8::from(error))
        }
    }
}

// The first bad line, 0 where there is none.
fn bad_line(error: LoadError) -> u64
    ensures { result ≡ load_line error }
{
    match error {
        LoadError::BadLine(line) => line as u64,
        LoadError::WrongLength => 0,
    }
}

// The chip of a text. Refused by 6 for a state array of another length, by 8 with the first bad line, by 4 for a memory of another length; then nothing changes.
pub fn mcp795_load(
    text: &[u8],
    state: &mut [u8],
    eeprom: &mut [u8],
    id: &mut [u8],
    line: &mut [u64; 1],
) -> u64
    ensures { called result line.new (arrays state.new eeprom.new id.new) ≡ loads_state text.now (arrays state.old eeprom.old id.old) }
{
    if state.len() != STATE {
        *line = [0];
        return u64::from(u8::from(Refusal::Range));
    }
    match saved::load(text, eeprom, id) {
        Ok(loaded) => {
            *line = [0];
            arrays::put_state((loaded.part % 256) as u8, loaded.device, state);
            0
        }
        Err(error) => {
            *line = [bad_line(error)];
            u64::from(u8::from(error))
        }
    }
}
