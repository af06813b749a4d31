// What is behind some accesses and is no call of the station by itself, over the one lent memory: refused with 5 where it is damaged.
ghost use Rattle.std.specs.Prelude.{◌<◌, ◌≡◌};
ghost use Rattle.state.specs.Answer.{Meets};
ghost use Rattle.state.specs.Unpack.{unpacked};
ghost use Rattle.rules.specs.Call.{new_diagnosis_call, events};
ghost use Rattle.rules.specs.Diagnosis.{present_flags};
ghost use Rattle.steps.specs.Calls.{called};
ghost use Rattle.window.specs.Table.{bits, cut_to, calls, nothing, no_cell};
ghost use Rattle.window.specs.Calls.{entered_by};

use rules::diagnosis::present_flags;
use state::answer::{Answer, Refusal};
use state::load::Image;
use station::memory::checked;
use station::{calls, over_memory};

// Eight bits of an answer, from that bit upward.
fn eight_bits(answer: Answer, from: u32) -> Answer
    requires { from < 32 }
    ensures { result ≡ cut_to (bits from) answer }
{
    answer.map(move |n| (n >> from) % 256)
}

// Eight bits of the event word.
pub fn event_bits(mem: &mut [u8], from: u32) -> Answer
    requires { from < 32 }
    ensures { Meets (entered_by mem.old (calls events (bits from))) result mem.new }
{
    eight_bits(calls::events(mem), from)
}

// A new diagnosis with the present count and flags.
#[tactic(auto, using(steps::proofs::Guarded::well_holds, crate::proofs::Present::renews), unfolding(steps::specs::Calls::called))]
pub fn renew_diagnosis(mem: &mut [u8]) -> Answer
    ensures { Meets (called mem.old (new_diagnosis_call (unpacked mem.old).control.diagnosis.count (present_flags (unpacked mem.old).control.flags))) result mem.new }
{
    checked(&mem[..])?;
    let control = Image { octets: &mem[..] }.control();
    let count = u32::from(control.diagnosis.count);
    let flags = u32::from(present_flags(control.flags));
    over_memory::new_diagnosis(mem, count, flags)
}

// No call: 0, and nothing changes.
#[tactic(auto, unfolding(crate::specs::Calls::entered_by))]
pub fn nothing(mem: &[u8]) -> Answer
    ensures { Meets (entered_by mem.now nothing) result mem.now }
{
    checked(mem)?;
    Ok(0)
}

// No cell: refused with 10.
#[tactic(auto, unfolding(crate::specs::Calls::entered_by))]
pub fn no_cell(mem: &[u8]) -> Answer
    ensures { Meets (entered_by mem.now no_cell) result mem.now }
{
    checked(mem)?;
    Err(Refusal::Cell)
}
