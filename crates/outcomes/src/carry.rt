// An outcome of the rules carried out on the state and the buffers, and what waits for the end of the line's business.
// Safe is asked in each function here that changes buffers: a type over &mut would need a clause in each that the reference stays the same.
#![tactic(auto, using(crate::proofs::NextRoom::next_room, steps::proofs::NothingWaits::unsettled), unfolding(steps::specs::Outcome::carried, steps::specs::Outcome::after_reply, steps::specs::Outcome::settle))]

ghost use Rattle.std.specs.Prelude.{◌+◌, ◌≤◌, ◌≡◌, length, replicate};
ghost use Rattle.octets.specs.Part.{pasted};
ghost use Rattle.buffers.specs.Roles.{next_of};
ghost use Rattle.state.specs.Layout.{outputs_at};
ghost use Rattle.steps.specs.Safe.{Safe};
ghost use Rattle.steps.specs.Stepped.{Steps};
ghost use Rattle.steps.specs.Outcome.{is_open, on_outputs, on_inputs, received_set, on_sets, on_state, carried, diagnosis_changed, after_reply, settle};

use crate::line::{busy, diagnosis_leaves};
use buffers::triple::Triple;
use rules::diagnosis::{caught_up, is_delayed};
use rules::line::clear_noted;
use rules::outcome::{InputsDeed, Outcome, OutputsDeed, SetDeed};
use state::control::Control;
use state::layout::outputs_at;
use state::setup::Setup;
use state::state::{Outputs, Sets, State};

// A set is open.
pub fn is_open(s: Sets) -> bool
    ensures { result ≡ is_open s }
{
    s.shown != 0
}

// What a deed makes of the output set,
pub fn on_outputs(deed: OutputsDeed, o: Outputs) -> Outputs
    ensures { result ≡ on_outputs deed o }
{
    match deed {
        OutputsDeed::Keep => o,
        OutputsDeed::Publish => Outputs {
            set: o.set.publish(),
            zeros: false,
        },
        OutputsDeed::HoldBack => Outputs {
            set: o.set.hold_back(),
            ..o
        },
        OutputsDeed::Release => Outputs {
            set: o.set.release(),
            zeros: false,
        },
        OutputsDeed::Zeros => Outputs {
            set: o.set.renew(),
            zeros: true,
        },
    }
}

// of the input set, where something new waits,
pub fn on_inputs(deed: InputsDeed, t: Triple) -> Triple
    ensures { result ≡ on_inputs deed t }
{
    match deed {
        InputsDeed::Bring if t.fresh => t.bring(),
        _ => t,
    }
}

// A set is shown if none is open; otherwise it waits.
fn received_set(s: Sets, count: u8) -> Sets
    ensures { result ≡ received_set s count }
{
    if is_open(s) {
        return Sets {
            set: s.set.publish(),
            waiting: count,
            ..s
        };
    }
    Sets {
        set: s.set.show(),
        shown: count,
        ..s
    }
}

// and of received sets; count: of the data received.
pub fn on_sets(deed: SetDeed, s: Sets, count: u8) -> Sets
    ensures { result ≡ on_sets deed s count }
{
    match deed {
        SetDeed::Keep => s,
        SetDeed::Receive => received_set(s, count),
        SetDeed::Advance => Sets {
            set: s.set.take(),
            shown: s.waiting,
            waiting: 0,
        },
        SetDeed::Drop => Sets {
            set: s.set.drop(),
            shown: 0,
            waiting: 0,
        },
    }
}

// The state after an outcome; count: of the data received.
fn on_state(s: State, o: Outcome, count: u8) -> State
    ensures { result ≡ on_state s o count }
{
    State {
        control: o.control,
        outputs: on_outputs(o.outputs, s.outputs),
        inputs: on_inputs(o.inputs, s.inputs),
        parameters: on_sets(o.parameters, s.parameters, count),
        configuration: on_sets(o.configuration, s.configuration, count),
        ..s
    }
}

// Zeros in the outputs' next buffer.
pub(crate) fn clear_next(setup: Setup, outputs: Outputs, mem: &mut [u8])
    requires { outputs_at setup (next_of outputs.set.place) + setup.output_len ≤ length mem.old }
    ensures { mem.new ≡ pasted mem.old (outputs_at setup (next_of outputs.set.place)) (replicate setup.output_len 0) }
{
    let from = outputs_at(setup, outputs.set.next());
    octets::clear_at(mem, from, setup.output_len as usize);
}

// An outcome carried out: the buffers first, where the deed asks for it, then the state.
pub fn carry_out(s: State, mem: &mut [u8], o: Outcome, count: u8) -> State
    requires { Safe s mem.old }
    ensures { Steps (carried s mem.old o count) result mem.new }
{
    if matches!(o.outputs, OutputsDeed::Zeros) {
        clear_next(s.setup, s.outputs, mem);
    }
    on_state(s, o, count)
}

// The two diagnosis buffers change, with that control part.
pub fn diagnosis_changed(mut s: State, control: Control) -> State
    ensures { result ≡ diagnosis_changed s control }
{
    s.control = control;
    s.swapped = !s.swapped;
    s
}

// A delayed diagnosis takes effect when the Slave_Diag reply ended or was dropped.
fn after_reply(s: State) -> State
    ensures { result ≡ after_reply s }
{
    if is_delayed(s.control.diagnosis) & !diagnosis_leaves(s) {
        return diagnosis_changed(s, caught_up(s.control));
    }
    s
}

// And then a noted clear where the line is idle.
fn settle_waiting(s: State, mem: &mut [u8]) -> State
    requires { Safe s mem.old }
    ensures { Steps (settle s mem.old) result mem.new }
{
    let t = after_reply(s);
    carry_out(t, mem, clear_noted(busy(s), t.control), 0)
}

// The line settled. Nearly always nothing waits, and the state is left as it is.
pub fn settle(s: State, mem: &mut [u8]) -> State
    requires { Safe s mem.old }
    ensures { Steps (settle s mem.old) result mem.new }
{
    if is_delayed(s.control.diagnosis) | s.control.noted {
        return settle_waiting(s, mem);
    }
    s
}
