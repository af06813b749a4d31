// Each call over the one lent memory: refused with 5 where it is damaged, else its step. One function for each: one that is handed the call
// would choose among them once more, for every octet.
// Kinds and judgements come as the numbers that the vat program gives: what is none of them is refused in its turn, behind the damage check.
#![tactic(auto, using(steps::proofs::Guarded::well_holds), unfolding(steps::specs::Calls::called))]

ghost use Rattle.state.specs.Answer.{Meets};
ghost use Rattle.rules.specs.Call.{octet, gap, send, tick, take, read, write, hand_over_call, new_diagnosis_call, judge_parameters_call, judge_configuration_call, events, acknowledge, pending, leave};
ghost use Rattle.steps.specs.Calls.{called};

use crate::memory::checked;
use crate::over_memory;
use state::answer::Answer;

// The bus's octet, flagged bad by the receiver or not.
pub fn octet(mem: &mut [u8], value: u8, bad: bool) -> Answer
    ensures { Meets (called mem.old (octet value bad)) result mem.new }
{
    checked(&mem[..])?;
    over_memory::octet(mem, value, bad)
}

// A gap on the bus.
pub fn gap(mem: &mut [u8]) -> Answer
    ensures { Meets (called mem.old gap) result mem.new }
{
    checked(&mem[..])?;
    over_memory::gap(mem)
}

// Send: the next octet of the reply, or 256.
pub fn send(mem: &mut [u8]) -> Answer
    ensures { Meets (called mem.old send) result mem.new }
{
    checked(&mem[..])?;
    over_memory::send(mem)
}

// A Tick: 1 ms.
pub fn tick(mem: &mut [u8]) -> Answer
    ensures { Meets (called mem.old tick) result mem.new }
{
    checked(&mem[..])?;
    over_memory::tick(mem)
}

// Take outputs: whether they are new, and whether the station published zeros.
pub fn take(mem: &mut [u8]) -> Answer
    ensures { Meets (called mem.old take) result mem.new }
{
    checked(&mem[..])?;
    over_memory::take(mem)
}

// Read an octet of a kind.
pub fn read(mem: &mut [u8], kind: u32, index: u32) -> Answer
    ensures { Meets (called mem.old (read kind index)) result mem.new }
{
    checked(&mem[..])?;
    over_memory::read(mem, kind, index)
}

// Write an octet of kind 4 or 5.
pub fn write(mem: &mut [u8], kind: u32, index: u32, value: u8) -> Answer
    ensures { Meets (called mem.old (write kind index value)) result mem.new }
{
    checked(&mem[..])?;
    over_memory::write(mem, kind, index, value)
}

// Hand over inputs: they come next.
pub fn hand_over(mem: &mut [u8]) -> Answer
    ensures { Meets (called mem.old hand_over_call) result mem.new }
{
    checked(&mem[..])?;
    over_memory::hand_over(mem)
}

// New diagnosis, with its count and flags.
pub fn new_diagnosis(mem: &mut [u8], count: u32, flags: u32) -> Answer
    ensures { Meets (called mem.old (new_diagnosis_call count flags)) result mem.new }
{
    checked(&mem[..])?;
    over_memory::new_diagnosis(mem, count, flags)
}

// Judge parameters: 1 good, 0 bad.
pub fn judge_parameters(mem: &mut [u8], judgement: u32) -> Answer
    ensures { Meets (called mem.old (judge_parameters_call judgement)) result mem.new }
{
    checked(&mem[..])?;
    over_memory::judge_parameters(mem, judgement)
}

// Judge configuration: 1 good, 0 bad.
pub fn judge_configuration(mem: &mut [u8], judgement: u32) -> Answer
    ensures { Meets (called mem.old (judge_configuration_call judgement)) result mem.new }
{
    checked(&mem[..])?;
    over_memory::judge_configuration(mem, judgement)
}

// The event word.
pub fn events(mem: &mut [u8]) -> Answer
    ensures { Meets (called mem.old events) result mem.new }
{
    checked(&mem[..])?;
    over_memory::events(mem)
}

// Acknowledge the events of a mask.
pub fn acknowledge(mem: &mut [u8], mask: u16) -> Answer
    ensures { Meets (called mem.old (acknowledge mask)) result mem.new }
{
    checked(&mem[..])?;
    over_memory::acknowledge(mem, mask)
}

// The smallest number of a set event, or 16.
pub fn pending(mem: &mut [u8]) -> Answer
    ensures { Meets (called mem.old pending) result mem.new }
{
    checked(&mem[..])?;
    over_memory::pending(mem)
}

// Leave master: a clear.
pub fn leave(mem: &mut [u8]) -> Answer
    ensures { Meets (called mem.old leave) result mem.new }
{
    checked(&mem[..])?;
    over_memory::leave(mem)
}
