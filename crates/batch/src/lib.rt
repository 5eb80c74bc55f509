#![tactic(auto)]

// A list of acts on a fresh chip, or on one that is at work, performed one after the other.
ghost use Rattle.std.specs.Prelude.{◌≡◌, length};
ghost use Rattle.record.specs.Fresh.{fresh};
ghost use Rattle.record.specs.World.{world};
ghost use Rattle.refusals.specs.Refusal.{setup_refusal};
ghost use Rattle.run.specs.Claim.{used_by};
ghost use Rattle.run.specs.Run.{Answered, answered, inputs_in, Performed, Run, RunFrom};

use record::{Act, Device};
use refusals::Refusal;
use run::Ran;

// The ticks that an act used, of the count that it is answered.
fn ticks_of(act: Act, count: u64) -> u64
    ensures { result ≡ used_by act count }
{
    if matches!(act, Act::Wait) { count } else { 0 }
}

// Four slices stay parameters, here and below: C hands each by itself, and a struct of lent slices would have to promise that it lends the same ones (D230).

// The acts on a chip with its memories, up to the first for which a slice has no room or whose code names no act. The record is in range, and stays
// so: no act tests that again.
fn perform_all(
    part: u64,
    device: Device,
    codes: &[u8],
    args: &[u64],
    answers: &mut [u8],
    used: &mut [u64],
    eeprom: &mut [u8],
    id: &mut [u8],
) -> Ran
    requires { setup_refusal part device (length eeprom.old) (length id.old) ≡ 0 }
    ensures { Performed part (inputs_in codes.now args.now answers.old used.old) answers.old answers.new used.old used.new (world device eeprom.old id.old) (world result.device eeprom.new id.new) result.count }
{
    let most = codes
        .len()
        .min(args.len())
        .min(answers.len().min(used.len()));
    let mut chip = device;
    for i in 0..most {
        let Ok(act) = Act::try_from(u64::from(codes[i])) else {
            return Ran {
                count: i,
                device: chip,
            };
        };
        match acts::perform_in_range(part, act, args[i], chip, eeprom, id) {
            Ok(a) => {
                answers[i] = 0;
                used[i] = ticks_of(act, a.count);
                chip = a.device;
            }
            Err(refusal) => {
                answers[i] = u8::from(refusal);
                used[i] = 0;
            }
        }
    }
    Ran {
        count: most,
        device: chip,
    }
}

// The acts on a fresh chip whose memories are filled with FFh. A part that is none and a memory of the wrong length are
// refused, and nothing changes.
pub fn run(
    part: u64,
    codes: &[u8],
    args: &[u64],
    answers: &mut [u8],
    used: &mut [u64],
    eeprom: &mut [u8],
    id: &mut [u8],
) -> Result<Ran, Refusal>
    ensures { Run part codes.now args.now answers.old answers.new used.old used.new eeprom.old eeprom.new id.old id.new (answered fresh result) }
{
    refusals::memory_refusal(part, eeprom.len(), id.len())?;
    let fresh = record::fresh_device();
    acts::page::erase(eeprom);
    acts::page::erase(id);
    Ok(perform_all(part, fresh, codes, args, answers, used, eeprom, id))
}

// The acts on a chip at work: they begin with this record and these memories. What the table refuses whatever the act is, a part that is none, a memory of
// the wrong length, a record out of range, is refused here, and nothing changes.
pub fn run_from(
    part: u64,
    device: Device,
    codes: &[u8],
    args: &[u64],
    answers: &mut [u8],
    used: &mut [u64],
    eeprom: &mut [u8],
    id: &mut [u8],
) -> Result<Ran, Refusal>
    ensures { RunFrom part device codes.now args.now answers.old answers.new used.old used.new eeprom.old eeprom.new id.old id.new (answered device result) }
{
    refusals::setup_refusal(part, device, eeprom.len(), id.len())?;
    Ok(perform_all(part, device, codes, args, answers, used, eeprom, id))
}

// `run` for a caller in another language, which calls it by `batch_c`: how many acts were performed.
pub fn tekuravy_run(
    part: u64,
    codes: &[u8],
    args: &[u64],
    answers: &mut [u8],
    used: &mut [u64],
    eeprom: &mut [u8],
    id: &mut [u8],
) -> u64
    ensures { (s : Answered) × (Run part codes.now args.now answers.old answers.new used.old used.new eeprom.old eeprom.new id.old id.new s) × (result ≡ s.count) }
{
    match run(part, codes, args, answers, used, eeprom, id) {
        Ok(ran) => ran.count as u64,
        Err(_) => 0,
    }
}
