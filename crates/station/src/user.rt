// The calls of the vat program over the memory that holds the state: each reads and writes the parts that it needs.
// Holds is asked of a plain &mut [u8]: it is broken between two saves, and that it holds again is no promise of a step but a theorem
// (steps/proofs/StaysUndamaged.antt). Kinds and judgements are plain numbers, as in calls.rt.
#![tactic(auto, using(crate::proofs::Stepping::still), unfolding(steps::specs::User::take_outputs, steps::specs::User::read_octet, steps::specs::User::write_octet, steps::specs::User::hand_over, steps::specs::User::new_diagnosis, steps::specs::User::judge_parameters, steps::specs::User::judge_configuration, steps::specs::User::acknowledge_events))]

ghost use Rattle.std.specs.Prelude.{◌≡◌, true, false, eqb, leb, IfOk, IfErr};
ghost use Rattle.state.specs.declared.answer.Refusal.TheVariants.{Range};
ghost use Rattle.state.specs.Answer.{Meets};
ghost use Rattle.state.specs.Memory.{Holds};
ghost use Rattle.state.specs.Unpack.{unpacked};
ghost use Rattle.rules.specs.Kinds.{kind_number};
ghost use Rattle.steps.specs.Stepped.{Tells};
ghost use Rattle.steps.specs.Step.{packed};
ghost use Rattle.steps.specs.User.{absent, kind_at, take_outputs, read_octet, write_octet, hand_over, new_diagnosis, judge_parameters, judge_configuration, acknowledge_events, leave_master};

use crate::replies::user_place;
use outcomes::carry::is_open;
use outcomes::line::{busy_in, diagnosis_leaves_in};
use outcomes::over::carry_over;
use outcomes::settling::change_diagnosis;
use rules::diagnosis::{delaying, diagnosed, is_delayed};
use rules::kinds::{Octets, addressed};
use rules::line::clear_on;
use rules::user::{judged_configuration, judged_parameters};
use state::answer::{Answer, Refusal};
use state::layout::{configuration_at, diagnosis_at, inputs_at, outputs_at, parameters_at};
use state::load::Image;
use state::memory::Held;
use state::saving::{save_control, save_events, save_inputs, save_outputs};

// Take outputs: 0 nothing new; else 1, or 2 where the station published zeros, and next and held change.
pub fn take_outputs(mem: &mut [u8]) -> Answer
    requires { Holds mem.old (unpacked mem.old) }
    ensures { Meets (packed mem.old (take_outputs (unpacked mem.old) mem.old)) result mem.new }
{
    let mut outputs = Image { octets: &mem[..] }.outputs();
    if !outputs.set.fresh {
        return Ok(0);
    }
    outputs.set = outputs.set.take();
    save_outputs(outputs, mem);
    Ok(1 + u32::from(outputs.zeros))
}

// Kind 2 or 3 with no set shown or at an index not below its count, kind 5 while a new diagnosis is delayed.
fn absent(image: Image, kind: Octets, index: u32) -> bool
    ensures { result ≡ absent (unpacked image.entry.octets.now) (kind_number kind) index }
{
    match kind {
        Octets::Parameters => u32::from(image.parameters().shown) <= index,
        Octets::Configuration => u32::from(image.configuration().shown) <= index,
        Octets::Diagnosis => is_delayed(image.diagnosis()),
        Octets::Outputs | Octets::Inputs => false,
    }
}

// Where the octets of a kind begin.
fn kind_at(image: Image, kind: Octets) -> usize
    ensures { result ≡ kind_at (unpacked image.entry.octets.now) (kind_number kind) }
{
    let setup = image.setup();
    match kind {
        Octets::Outputs => outputs_at(setup, image.outputs().set.held()),
        Octets::Parameters => parameters_at(setup, image.parameters().set.held()),
        Octets::Configuration => configuration_at(setup, image.configuration().set.held()),
        Octets::Inputs => inputs_at(setup, image.inputs().held()),
        Octets::Diagnosis => diagnosis_at(setup, user_place(image.swapped())),
    }
}

// Reading answers the octet; the state is not unpacked as a whole.
pub fn read_octet(held: Held, kind: u32, index: u32) -> Answer
    ensures { Tells (read_octet (unpacked held.entry.image.octets.now) held.entry.image.octets.now kind index) result (unpacked held.entry.image.octets.now) held.entry.image.octets.now }
{
    let image = held.image;
    let Some(kind) = addressed(image.setup(), kind, index) else {
        return Err(Refusal::Range);
    };
    if absent(image, kind, index) {
        return Err(Refusal::Absent);
    }
    Ok(u32::from(image.octets[kind_at(image, kind) + index as usize]))
}

// Kinds 4 and 5 are written.
pub fn write_octet(mem: &mut [u8], kind: u32, index: u32, octet: u8) -> Answer
    requires { Holds mem.old (unpacked mem.old) }
    ensures { Tells (write_octet (unpacked mem.old) mem.old kind index octet) result (unpacked mem.old) mem.new }
{
    let image = Image { octets: &mem[..] };
    let Some(kind) = addressed(image.setup(), kind, index) else {
        return Err(Refusal::Range);
    };
    if !kind.is_writable() {
        return Err(Refusal::Range);
    }
    if absent(image, kind, index) {
        return Err(Refusal::Absent);
    }
    let from = kind_at(image, kind);
    mem[from + index as usize] = octet;
    Ok(0)
}

// Hand over inputs: held and next change, next is new.
pub fn hand_over(mem: &mut [u8]) -> Answer
    requires { Holds mem.old (unpacked mem.old) }
    ensures { Meets (packed mem.old (hand_over (unpacked mem.old) mem.old)) result mem.new }
{
    let inputs = Image { octets: &mem[..] }.inputs();
    save_inputs(inputs.hand_over(), mem);
    Ok(0)
}

// New diagnosis; while a Slave_Diag reply is unfinished all of it waits.
pub fn new_diagnosis(mem: &mut [u8], count: u32, flags: u32) -> Answer
    requires { Holds mem.old (unpacked mem.old) }
    ensures { Meets (packed mem.old (new_diagnosis (unpacked mem.old) mem.old count flags)) result mem.new }
{
    let image = Image { octets: &mem[..] };
    let setup = image.setup();
    let control = image.control();
    if !((6 <= count) & (count <= u32::from(setup.diagnosis_len)) & (flags <= 7)) {
        return Err(Refusal::Range);
    }
    if is_delayed(control.diagnosis) {
        return Err(Refusal::Delayed);
    }
    let n = count as u8;
    let f = flags as u8;
    if diagnosis_leaves_in(image) {
        save_control(delaying(control, n, f), mem);
        return Ok(0);
    }
    change_diagnosis(mem, diagnosed(control, n, f));
    Ok(0)
}

// Whether a judgement is good: 1 good, 0 bad.
fn is_good(judgement: u32) -> Result<bool, Refusal>
    ensures known { IfOk result (λ good. (leb judgement 1 ≡ true) × (good ≡ eqb judgement 1)) }
    ensures unknown { IfErr result (λ why. (why ≡ Range) × (leb judgement 1 ≡ false)) }
{
    if 1 < judgement {
        return Err(Refusal::Range);
    }
    Ok(judgement == 1)
}

// Judge parameters: a set has to be open. 1 if a newer set waited, else 0.
pub fn judge_parameters(mem: &mut [u8], judgement: u32) -> Answer
    requires { Holds mem.old (unpacked mem.old) }
    ensures { Meets (packed mem.old (judge_parameters (unpacked mem.old) mem.old judgement)) result mem.new }
{
    let image = Image { octets: &mem[..] };
    let parameters = image.parameters();
    if !is_open(parameters) {
        return Err(Refusal::Judging);
    }
    let good = is_good(judgement)?;
    let waits = parameters.set.fresh;
    let control = image.control();
    carry_over(mem, judged_parameters(control, waits, good), 0);
    Ok(u32::from(waits))
}

// Judge configuration: likewise, and not before good parameters. Its set, test and outcome are its own; one function of both would take them as
// closures, and be no plainer.
pub fn judge_configuration(mem: &mut [u8], judgement: u32) -> Answer
    requires { Holds mem.old (unpacked mem.old) }
    ensures { Meets (packed mem.old (judge_configuration (unpacked mem.old) mem.old judgement)) result mem.new }
{
    let image = Image { octets: &mem[..] };
    let configuration = image.configuration();
    let control = image.control();
    if !(is_open(configuration) & control.flags.parameters_good) {
        return Err(Refusal::Judging);
    }
    let good = is_good(judgement)?;
    let waits = configuration.set.fresh;
    carry_over(mem, judged_configuration(control, waits, good), 0);
    Ok(u32::from(waits))
}

// Acknowledge clears bits, never 10 or 11.
pub fn acknowledge(mem: &mut [u8], mask: u16) -> Answer
    requires { Holds mem.old (unpacked mem.old) }
    ensures { Meets (packed mem.old (acknowledge_events (unpacked mem.old) mem.old mask)) result mem.new }
{
    let events = Image { octets: &mem[..] }.events();
    save_events(events.acknowledge(mask), mem);
    Ok(0)
}

// Leave master: a clear.
pub fn leave(mem: &mut [u8]) -> Answer
    requires { Holds mem.old (unpacked mem.old) }
    ensures { Meets (packed mem.old (leave_master (unpacked mem.old) mem.old)) result mem.new }
{
    let image = Image { octets: &mem[..] };
    let control = image.control();
    let busy = busy_in(image);
    carry_over(mem, clear_on(busy, control), 0);
    Ok(0)
}
