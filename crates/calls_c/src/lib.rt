#![tactic(auto)]

// `calls` for a caller in another language. A slice is a pointer and a length to it, an array of a fixed length a pointer.
ghost use Rattle.std.specs.Prelude.{◌≡◌};
ghost use Rattle.arrays.specs.Arrays.{arrays};
ghost use Rattle.calls.specs.Calls.{called, acts};

const ANSWER: usize = arrays::ANSWER;

// One act by its number, with its argument. The answer: the refusal number, whether SO drives, what it drives, the count, both levels.
#[unsafe(no_mangle)]
pub extern "C" fn mcp795_act(
    state: &mut [u8],
    eeprom: &mut [u8],
    id: &mut [u8],
    act: u64,
    number: u64,
    answer: &mut [u64; ANSWER],
) -> u64
    ensures { called result answer.new (arrays state.new eeprom.new id.new) ≡ acts (arrays state.old eeprom.old id.old) act number }
{
    calls::mcp795_act(state, eeprom, id, act, number, answer)
}
