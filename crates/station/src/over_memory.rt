// Each call as a step over the memory that holds its state; nothing of the memory is checked here. Each reads and writes only what it
// needs of the state. One function for each, as in calls.rt.
// Holds is asked of a plain &mut [u8]: it is broken between two saves, and that it holds again is no promise of a step but a theorem
// (steps/proofs/StaysUndamaged.antt). Kinds and judgements are plain numbers, as in calls.rt.
#![tactic(auto, using(crate::proofs::Stepping::still, crate::proofs::Stepping::answered), unfolding(steps::specs::Step::step_over))]

ghost use Rattle.state.specs.Answer.{Meets};
ghost use Rattle.state.specs.Memory.{Holds};
ghost use Rattle.state.specs.Unpack.{unpacked};
ghost use Rattle.rules.specs.Call.{octet, gap, send, tick, take, read, write, hand_over_call, new_diagnosis_call, judge_parameters_call, judge_configuration_call, events, acknowledge, pending, leave};
ghost use Rattle.steps.specs.Step.{step_over};

use crate::{bus, hearing, user};
use state::answer::Answer;
use state::load::Image;
use state::memory::Held;

// The bus's octet, flagged bad by the receiver or not.
pub fn octet(mem: &mut [u8], value: u8, bad: bool) -> Answer
    requires { Holds mem.old (unpacked mem.old) }
    ensures { Meets (step_over mem.old (octet value bad)) result mem.new }
{
    hearing::hear_octet(mem, value, bad);
    Ok(0)
}

// A gap on the bus.
pub fn gap(mem: &mut [u8]) -> Answer
    requires { Holds mem.old (unpacked mem.old) }
    ensures { Meets (step_over mem.old gap) result mem.new }
{
    bus::gap(mem);
    Ok(0)
}

// Send: the next octet of the reply, or 256.
pub fn send(mem: &mut [u8]) -> Answer
    requires { Holds mem.old (unpacked mem.old) }
    ensures { Meets (step_over mem.old send) result mem.new }
{
    match bus::send(mem) {
        Some(octet) => Ok(u32::from(octet)),
        None => Ok(256),
    }
}

// A Tick: 1 ms.
pub fn tick(mem: &mut [u8]) -> Answer
    requires { Holds mem.old (unpacked mem.old) }
    ensures { Meets (step_over mem.old tick) result mem.new }
{
    bus::tick(mem);
    Ok(0)
}

// Take outputs: whether they are new, and whether the station published zeros.
pub fn take(mem: &mut [u8]) -> Answer
    requires { Holds mem.old (unpacked mem.old) }
    ensures { Meets (step_over mem.old take) result mem.new }
{
    user::take_outputs(mem)
}

// Read an octet of a kind.
pub fn read(mem: &mut [u8], kind: u32, index: u32) -> Answer
    requires { Holds mem.old (unpacked mem.old) }
    ensures { Meets (step_over mem.old (read kind index)) result mem.new }
{
    let image = Image { octets: &mem[..] };
    user::read_octet(Held { image }, kind, index)
}

// Write an octet of kind 4 or 5.
pub fn write(mem: &mut [u8], kind: u32, index: u32, value: u8) -> Answer
    requires { Holds mem.old (unpacked mem.old) }
    ensures { Meets (step_over mem.old (write kind index value)) result mem.new }
{
    user::write_octet(mem, kind, index, value)
}

// Hand over inputs: they come next.
pub fn hand_over(mem: &mut [u8]) -> Answer
    requires { Holds mem.old (unpacked mem.old) }
    ensures { Meets (step_over mem.old hand_over_call) result mem.new }
{
    user::hand_over(mem)
}

// New diagnosis, with its count and flags.
pub fn new_diagnosis(mem: &mut [u8], count: u32, flags: u32) -> Answer
    requires { Holds mem.old (unpacked mem.old) }
    ensures { Meets (step_over mem.old (new_diagnosis_call count flags)) result mem.new }
{
    user::new_diagnosis(mem, count, flags)
}

// Judge parameters: 1 good, 0 bad.
pub fn judge_parameters(mem: &mut [u8], judgement: u32) -> Answer
    requires { Holds mem.old (unpacked mem.old) }
    ensures { Meets (step_over mem.old (judge_parameters_call judgement)) result mem.new }
{
    user::judge_parameters(mem, judgement)
}

// Judge configuration: 1 good, 0 bad.
pub fn judge_configuration(mem: &mut [u8], judgement: u32) -> Answer
    requires { Holds mem.old (unpacked mem.old) }
    ensures { Meets (step_over mem.old (judge_configuration_call judgement)) result mem.new }
{
    user::judge_configuration(mem, judgement)
}

// The event word.
pub fn events(mem: &mut [u8]) -> Answer
    requires { Holds mem.old (unpacked mem.old) }
    ensures { Meets (step_over mem.old events) result mem.new }
{
    Ok(u32::from(Image { octets: &mem[..] }.events().word))
}

// Acknowledge the events of a mask.
pub fn acknowledge(mem: &mut [u8], mask: u16) -> Answer
    requires { Holds mem.old (unpacked mem.old) }
    ensures { Meets (step_over mem.old (acknowledge mask)) result mem.new }
{
    user::acknowledge(mem, mask)
}

// The smallest number of a set event, or 16.
pub fn pending(mem: &mut [u8]) -> Answer
    requires { Holds mem.old (unpacked mem.old) }
    ensures { Meets (step_over mem.old pending) result mem.new }
{
    Ok(u32::from(Image { octets: &mem[..] }.events().pending()))
}

// Leave master: a clear.
pub fn leave(mem: &mut [u8]) -> Answer
    requires { Holds mem.old (unpacked mem.old) }
    ensures { Meets (step_over mem.old leave) result mem.new }
{
    user::leave(mem)
}
