// An outcome of the rules carried out over the memory that holds the state: a set that the rules keep is not written.
// What a memory has to hold is asked in each function here: a type over &mut would need a clause in each that the reference stays the same.
ghost use Rattle.std.specs.Prelude.{◌≤◌, ◌≡◌, length};
ghost use Rattle.state.specs.declared.state.State.{State};
ghost use Rattle.state.specs.Layout.{image_length};
ghost use Rattle.state.specs.Memory.{kept, Holds};
ghost use Rattle.state.specs.Unpack.{unpacked};
ghost use Rattle.state.specs.With.{with_outputs, with_inputs, with_parameters, with_configuration};
ghost use Rattle.rules.specs.Retries.{on_chain};
ghost use Rattle.steps.specs.Safe.{Safe};
ghost use Rattle.steps.specs.Stepped.{packed_after};
ghost use Rattle.steps.specs.Outcome.{on_outputs, on_inputs, on_sets, on_memory, carried};

use crate::carry::{clear_next, on_inputs, on_outputs, on_sets};
use rules::outcome::{InputsDeed, Outcome, OutputsDeed, SetDeed};
use state::load::Image;
use state::saving::{save_configuration, save_control, save_inputs, save_outputs, save_parameters};

// The buffers, where the deed asks for it.
#[tactic(auto, using(crate::proofs::NextRoom::next_room, steps::proofs::Behind::safe_long))]
fn carry_buffers(deed: OutputsDeed, mem: &mut [u8])
    requires { Safe (unpacked mem.old) mem.old }
    ensures { mem.new ≡ on_memory deed (unpacked mem.old) mem.old }
{
    if matches!(deed, OutputsDeed::Zeros) {
        let image = Image { octets: &mem[..] };
        clear_next(image.setup(), image.outputs(), mem);
    }
}

// What becomes of the output set. Here and at the sets below each deed has an arm: of one call for all but Keep the compiler makes less, and
// a clear takes some 55 instructions more on x86-64.
fn put_outputs(deed: OutputsDeed, mem: &mut [u8])
    requires { image_length ≤ length mem.old }
    ensures { (s : State) → s.outputs ≡ (unpacked mem.old).outputs → mem.old ≡ kept s mem.old → mem.new ≡ kept (with_outputs s (on_outputs deed s.outputs)) mem.old }
{
    let outputs = Image { octets: &mem[..] }.outputs();
    match deed {
        OutputsDeed::Keep => {}
        OutputsDeed::Publish => save_outputs(on_outputs(OutputsDeed::Publish, outputs), mem),
        OutputsDeed::HoldBack => save_outputs(on_outputs(OutputsDeed::HoldBack, outputs), mem),
        OutputsDeed::Release => save_outputs(on_outputs(OutputsDeed::Release, outputs), mem),
        OutputsDeed::Zeros => save_outputs(on_outputs(OutputsDeed::Zeros, outputs), mem),
    }
}

// Of the input set.
fn put_inputs(deed: InputsDeed, mem: &mut [u8])
    requires { image_length ≤ length mem.old }
    ensures { (s : State) → s.inputs ≡ (unpacked mem.old).inputs → mem.old ≡ kept s mem.old → mem.new ≡ kept (with_inputs s (on_inputs deed s.inputs)) mem.old }
{
    if !matches!(deed, InputsDeed::Keep) {
        let inputs = Image { octets: &mem[..] }.inputs();
        save_inputs(on_inputs(deed, inputs), mem);
    }
}

// Of the parameters received.
fn put_parameters(deed: SetDeed, count: u8, mem: &mut [u8])
    requires { image_length ≤ length mem.old }
    ensures { (s : State) → s.parameters ≡ (unpacked mem.old).parameters → mem.old ≡ kept s mem.old → mem.new ≡ kept (with_parameters s (on_sets deed s.parameters count)) mem.old }
{
    let parameters = Image { octets: &mem[..] }.parameters();
    match deed {
        SetDeed::Keep => {}
        SetDeed::Receive => save_parameters(on_sets(SetDeed::Receive, parameters, count), mem),
        SetDeed::Advance => save_parameters(on_sets(SetDeed::Advance, parameters, count), mem),
        SetDeed::Drop => save_parameters(on_sets(SetDeed::Drop, parameters, count), mem),
    }
}

// Of the configuration received. One function for both kinds of sets would be handed the reading and the saving.
fn put_configuration(deed: SetDeed, count: u8, mem: &mut [u8])
    requires { image_length ≤ length mem.old }
    ensures { (s : State) → s.configuration ≡ (unpacked mem.old).configuration → mem.old ≡ kept s mem.old → mem.new ≡ kept (with_configuration s (on_sets deed s.configuration count)) mem.old }
{
    let configuration = Image { octets: &mem[..] }.configuration();
    match deed {
        SetDeed::Keep => {}
        SetDeed::Receive => save_configuration(
            on_sets(SetDeed::Receive, configuration, count),
            mem,
        ),
        SetDeed::Advance => save_configuration(
            on_sets(SetDeed::Advance, configuration, count),
            mem,
        ),
        SetDeed::Drop => save_configuration(on_sets(SetDeed::Drop, configuration, count), mem),
    }
}

// An outcome carried out: the control part but for the chain, which requests alone change, then the buffers, where the deed asks for it,
// then each set. The control part comes first and a set is read where it is written, so that the compiler keeps neither while the rest is
// done.
pub fn carry_over(mem: &mut [u8], o: Outcome, count: u8)
    requires { Holds mem.old (unpacked mem.old) }
    ensures { mem.new ≡ packed_after (carried (unpacked mem.old) mem.old (on_chain o (unpacked mem.old).control.chain) count) }
{
    save_control(o.control, mem);
    carry_buffers(o.outputs, mem);
    put_outputs(o.outputs, mem);
    put_inputs(o.inputs, mem);
    put_parameters(o.parameters, count, mem);
    put_configuration(o.configuration, count, mem);
}
