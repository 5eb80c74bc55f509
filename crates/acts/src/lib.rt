#![tactic(auto)]

// The acts on a chip's record and the two memories that are lent to each act.
ghost use Rattle.std.specs.Prelude.{◌≡◌, length, None};
ghost use Rattle.refusals.specs.Refusal.{refusal_of, setup_refusal};
ghost use Rattle.record.specs.World.{world};
ghost use Rattle.ticks.specs.Tick.{waited};
ghost use Rattle.power.specs.Power.{cut_count, cut_world};
ghost use Rattle.acts.specs.Page.{PageInside};
ghost use Rattle.acts.specs.Act.{silent_answer, outcome_done, outcome_of, outcome, waited_outcome, accepted, performed};

use record::{Act, Device};
use refusals::Refusal;

pub mod page; // page.rt: a page stored under a mask, a memory erased

// What an act that is done answers: the reply on SO; a wait's ticks used or a cut's count; the record after it.
#[derive(Clone, Copy)]
pub struct Answer {
    pub reply: Option<u8>,
    pub count: u64,
    pub device: Device,
}

// An answer with no reply.
fn silent(count: u64, device: Device) -> Answer
    ensures { result ≡ silent_answer count device }
{
    Answer {
        reply: None,
        count,
        device,
    }
}

// A wait: the record's ticks, and at most one page stored after them.
#[tactic(auto, using(ticks::proofs::WaitLaws::wait_settled))]
fn wait_act(boots: bool, n: u64, d: Device, eeprom: &mut [u8], id: &mut [u8]) -> Answer
    requires { PageInside d.cycle.target eeprom.old id.old }
    ensures { outcome_done result eeprom.new id.new ≡ waited_outcome (waited boots n (world d eeprom.old id.old)) }
{
    let w = waits::wait::wait_device(boots, n, d);
    let was = 0 < d.cycle.left;
    let runs = 0 < w.device.cycle.left;
    if was & !runs {
        page::store_target(d.cycle.target, d.load, ticks::tick::WHOLE, eeprom, id);
    }
    silent(w.used, w.device)
}

// A cut: what the mask lets through is stored, the rest is gone.
#[tactic(auto, unfolding(power::specs::Power::cut_world))]
fn cut_act(mask: u8, d: Device, eeprom: &mut [u8], id: &mut [u8]) -> Answer
    requires { PageInside d.cycle.target eeprom.old id.old }
    ensures { outcome_done result eeprom.new id.new ≡ outcome 0 None (cut_count mask d) (cut_world mask (world d eeprom.old id.old)) }
{
    if d.cycle.left != 0 {
        page::store_target(d.cycle.target, d.load, mask, eeprom, id);
    }
    let count = power::cut::cut_count(mask, d) as u64;
    silent(count, power::cut::after_cut(mask, d))
}

// An act that the table does not refuse.
#[tactic(auto, using(crate::proofs::AcceptedLaws::accepted_laws))]
fn accepted_act(
    part: u64,
    act: Act,
    arg: u64,
    d: Device,
    eeprom: &mut [u8],
    id: &mut [u8],
) -> Answer
    requires { refusal_of part act arg d (length eeprom.old) (length id.old) ≡ 0 }
    ensures { outcome_done result eeprom.new id.new ≡ accepted part arg (world d eeprom.old id.old) act }
{
    let top = record::part::top(part);
    let boots = record::part::boots(part);
    let v = (arg % 256) as u8;
    match act {
        Act::Select => silent(0, frames::byte::after_select(d)),
        Act::Byte => {
            let reply = replies::next_reply(eeprom, id, d);
            let device = frames::byte::after_byte(boots, top, v, d);
            Answer {
                reply,
                count: 0,
                device,
            }
        }
        Act::End => {
            let reply = replies::leftover_reply(v, eeprom, id, d);
            let device = ends::end::after_end(top, v, d);
            Answer {
                reply,
                count: 0,
                device,
            }
        }
        Act::Wait => wait_act(boots, arg, d, eeprom, id),
        Act::Cut => cut_act(v, d, eeprom, id),
        Act::Up => silent(0, power::cut::after_up(d)),
        Act::Set(pin) => silent(0, pins::after_set(pin, v, d)),
    }
}

// One act on a part, a record and memories that no row of the table refuses. A refused act changes nothing.
#[tactic(auto, using(crate::proofs::OutcomeLaws::refused_by_act))]
pub fn perform_in_range(
    part: u64,
    act: Act,
    arg: u64,
    d: Device,
    eeprom: &mut [u8],
    id: &mut [u8],
) -> Result<Answer, Refusal>
    requires { setup_refusal part d (length eeprom.old) (length id.old) ≡ 0 }
    ensures { outcome_of d result eeprom.new id.new ≡ performed part act arg (world d eeprom.old id.old) }
{
    refusals::act_refusal(act, arg, d)?;
    Ok(accepted_act(part, act, arg, d, eeprom, id))
}

// One act. Part and argument are any numbers; a refused act changes nothing.
// Part, record and memories stay parameters: a struct of lent memories would have to promise that it lends the same ones (D230).
#[tactic(auto, using(crate::proofs::OutcomeLaws::refused_by_setup))]
pub fn perform(
    part: u64,
    act: Act,
    arg: u64,
    d: Device,
    eeprom: &mut [u8],
    id: &mut [u8],
) -> Result<Answer, Refusal>
    ensures { outcome_of d result eeprom.new id.new ≡ performed part act arg (world d eeprom.old id.old) }
{
    refusals::setup_refusal(part, d, eeprom.len(), id.len())?;
    perform_in_range(part, act, arg, d, eeprom, id)
}
