// What waits for the end of the line's business, over the memory that holds the state: nothing is written where nothing comes of it.
// What a memory has to hold is asked in each function here: a type over &mut would need a clause in each that the reference stays the same.
#![tactic(auto, using(state::proofs::Damage::fronted_same, steps::proofs::NothingWaits::idle), unfolding(steps::specs::Outcome::carried, steps::specs::Outcome::after_reply, rules::specs::Phases::wait_prm, rules::specs::Diagnosis::diagnosed))]

ghost use Rattle.std.specs.Prelude.{◌≤◌, ◌≡◌, length};
ghost use Rattle.state.specs.declared.state.State.{State};
ghost use Rattle.state.specs.Layout.{image_length};
ghost use Rattle.state.specs.Memory.{kept, Holds};
ghost use Rattle.state.specs.Unpack.{unpacked};
ghost use Rattle.rules.specs.Control.{with_chain};
ghost use Rattle.rules.specs.Line.{clear_noted};
ghost use Rattle.steps.specs.Stepped.{packed_after};
ghost use Rattle.steps.specs.Line.{busy};
ghost use Rattle.steps.specs.Outcome.{carried, diagnosis_changed, after_reply, settle};

use crate::line::{busy_in, diagnosis_leaves_in, waits};
use crate::over::carry_over;
use rules::diagnosis::{caught_up, is_delayed};
use rules::line::clearing;
use state::control::Control;
use state::load::Image;
use state::saving::{save_control, save_swapped};

// The two diagnosis buffers change, with that control part but for its chain.
pub fn change_diagnosis(mem: &mut [u8], control: Control)
    requires { image_length ≤ length mem.old }
    ensures { (s : State) → unpacked mem.old ≡ s → mem.old ≡ kept s mem.old → mem.new ≡ kept (diagnosis_changed s (with_chain control s.control.chain)) mem.old }
{
    let swapped = Image { octets: &mem[..] }.swapped();
    save_control(control, mem);
    save_swapped(!swapped, mem);
}

// A delayed diagnosis takes effect when the Slave_Diag reply ended or was dropped.
fn catch_up(mem: &mut [u8])
    requires { Holds mem.old (unpacked mem.old) }
    ensures { mem.new ≡ kept (after_reply (unpacked mem.old)) mem.old }
{
    let image = Image { octets: &mem[..] };
    if is_delayed(image.diagnosis()) & !diagnosis_leaves_in(image) {
        let control = caught_up(image.control());
        change_diagnosis(mem, control);
    }
}

// A noted clear is carried out when the line is idle.
fn clear_noted_in(mem: &mut [u8])
    requires { Holds mem.old (unpacked mem.old) }
    ensures { mem.new ≡ packed_after (carried (unpacked mem.old) mem.old (clear_noted (busy (unpacked mem.old)) (unpacked mem.old).control) 0) }
{
    let image = Image { octets: &mem[..] };
    if image.noted() & !busy_in(image) {
        let outcome = clearing(image.control());
        carry_over(mem, outcome, 0);
    }
}

// The line settled, where something waits: the diagnosis first.
pub fn settle_waiting(mem: &mut [u8])
    requires { Holds mem.old (unpacked mem.old) }
    ensures { mem.new ≡ packed_after (settle (unpacked mem.old) mem.old) }
{
    catch_up(mem);
    clear_noted_in(mem);
}

// The line settled. Nearly always nothing waits.
pub fn settle_over(mem: &mut [u8])
    requires { Holds mem.old (unpacked mem.old) }
    ensures { mem.new ≡ packed_after (settle (unpacked mem.old) mem.old) }
{
    if waits(Image { octets: &mem[..] }) {
        settle_waiting(mem);
    }
}
