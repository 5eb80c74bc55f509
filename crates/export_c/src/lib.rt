#![tactic(auto)]

// `export` for a caller in another language. A slice is a pointer and a length to it, an array of a fixed length a pointer.
ghost use Rattle.std.specs.Prelude.{◌≡◌, []};
ghost use Rattle.arrays.specs.Arrays.{arrays};
ghost use Rattle.calls.specs.Calls.{called, newly, wrote, saves_state, loads_state};

// A fresh chip of a part. Refused by 3 for a part that is none, by 4 for a memory of another length, by 6 for a state array of another length; then nothing
// changes.
#[unsafe(no_mangle)]
pub extern "C" fn mcp795_new(part: u64, state: &mut [u8], eeprom: &mut [u8], id: &mut [u8]) -> u64
    ensures { called result [] (arrays state.new eeprom.new id.new) ≡ newly part (arrays state.old eeprom.old id.old) }
{
    export::mcp795_new(part, state, eeprom, id)
}

// The text of a chip, put into the room lent; its length. Refused as an act is, and by 8 where there is too little room; then the length is 0.
#[unsafe(no_mangle)]
pub extern "C" fn mcp795_save(
    state: &[u8],
    eeprom: &[u8],
    id: &[u8],
    text: &mut [u8],
    length: &mut [u64; 1],
) -> u64
    ensures { wrote result length.new text.new ≡ saves_state (arrays state.now eeprom.now id.now) text.old }
{
    export::mcp795_save(state, eeprom, id, text, length)
}

// The chip of a text. Refused by 6 for a state array of another length, by 8 with the first bad line, by 4 for a memory of another length; then nothing changes.
#[unsafe(no_mangle)]
pub extern "C" fn mcp795_load(
    text: &[u8],
    state: &mut [u8],
    eeprom: &mut [u8],
    id: &mut [u8],
    line: &mut [u64; 1],
) -> u64
    ensures { called result line.new (arrays state.new eeprom.new id.new) ≡ loads_state text.now (arrays state.old eeprom.old id.old) }
{
    export::mcp795_load(text, state, eeprom, id, line)
}
