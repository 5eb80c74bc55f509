#![tactic(auto)]

// `batch` for a caller in another language, to whom each slice is a pointer and a length.
ghost use Rattle.std.specs.Prelude.{◌≡◌};
ghost use Rattle.run.specs.Run.{Answered, Run};

// How many acts were performed.
#[unsafe(no_mangle)]
pub extern "C" fn tekuravy_run(
    part: u64,
    codes: &[u8],
    args: &[u64],
    answers: &mut [u8],
    used: &mut [u64],
    eeprom: &mut [u8],
    id: &mut [u8],
) -> u64
    ensures { (s : Answered) × (Run part codes.now args.now answers.old answers.new used.old used.new eeprom.old eeprom.new id.old id.new s) × (result ≡ s.count) }
{
    batch::tekuravy_run(part, codes, args, answers, used, eeprom, id)
}
