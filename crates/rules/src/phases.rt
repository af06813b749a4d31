// Entering and leaving the phases.
ghost use Rattle.std.specs.Prelude.{◌≡◌};
ghost use Rattle.rules.specs.Control.{exchanging, in_wait_prm, with_flags, with_prm_fault, with_cfg_fault};
ghost use Rattle.rules.specs.Phases.{drawing, left_exchange, left, wait_prm, entering_wait_prm, wait_cfg, zeros_if_left, data_exch};

use crate::modes::ended;
use crate::outcome::{InputsDeed, Outcome, OutputsDeed, SetDeed};
use buffers::events::Events;
use state::control::{Control, Phase, Watchdog};
use state::state::Drawn;

// Whether the phase is DATA_EXCH.
pub fn in_exchange(phase: Phase) -> bool
    ensures { result ≡ exchanging phase }
{
    matches!(phase, Phase::DataExch)
}

// Whether the phase is WAIT_PRM.
pub fn in_wait_prm(phase: Phase) -> bool
    ensures { result ≡ in_wait_prm phase }
{
    matches!(phase, Phase::WaitPrm)
}

// Nothing but a reply comes of it.
pub fn drawing(control: Control, drawn: Drawn) -> Outcome
    ensures { result ≡ drawing control drawn }
{
    Outcome {
        control,
        outputs: OutputsDeed::Keep,
        inputs: InputsDeed::Keep,
        parameters: SetDeed::Keep,
        configuration: SetDeed::Keep,
        drawn,
    }
}

// Event 1 where DATA_EXCH is left.
fn left_exchange(control: Control) -> Events
    ensures { result ≡ left_exchange control }
{
    if in_exchange(control.phase) {
        return control.events.raise(Events::DATA_EXCHANGE);
    }
    control.events
}

// WAIT_PRM entered, even from itself: no owner, watchdog off, group and stored control 0, no set open, zeros published, both modes
// ended.
#[tactic(auto, unfolding(crate::specs::Phases::wait_prm))]
pub fn wait_prm(control: Control) -> Control
    ensures { result ≡ wait_prm control }
{
    Control {
        phase: Phase::WaitPrm,
        owner: Control::NO_OWNER,
        group: 0,
        stored: 0,
        watchdog: Watchdog {
            reload: 0,
            remaining: 0,
        },
        events: left_exchange(control)
            .clear(Events::CONFIGURATION)
            .clear(Events::PARAMETERS)
            .raise(Events::OUTPUTS),
        modes: ended(control.modes),
        ..control
    }
}

// WAIT_PRM entered, with what becomes of the buffers: zeros published, which empties what is held back, parameter and configuration
// sets dropped.
pub fn entering_wait_prm(control: Control, drawn: Drawn) -> Outcome
    ensures { result ≡ entering_wait_prm control drawn }
{
    Outcome {
        outputs: OutputsDeed::Zeros,
        parameters: SetDeed::Drop,
        configuration: SetDeed::Drop,
        ..drawing(wait_prm(control), drawn)
    }
}

// A fault of the parameters: Prm_Fault, WAIT_PRM. Not one function with cfg_fault: a field is no parameter.
pub(crate) fn prm_fault(mut control: Control, drawn: Drawn) -> Outcome
    ensures { result ≡ entering_wait_prm (with_flags control (with_prm_fault control.flags)) drawn }
{
    control.flags.prm_fault = true;
    entering_wait_prm(control, drawn)
}

// A fault of the configuration: Cfg_Fault, WAIT_PRM.
pub(crate) fn cfg_fault(mut control: Control, drawn: Drawn) -> Outcome
    ensures { result ≡ entering_wait_prm (with_flags control (with_cfg_fault control.flags)) drawn }
{
    control.flags.cfg_fault = true;
    entering_wait_prm(control, drawn)
}

// DATA_EXCH left: event 1, zeros published, both modes ended.
fn left(mut control: Control) -> Control
    ensures { result ≡ left control }
{
    control.events = left_exchange(control).raise(Events::OUTPUTS);
    control.modes = ended(control.modes);
    control
}

// WAIT_CFG entered.
#[tactic(auto, unfolding(crate::specs::Phases::wait_cfg))]
pub fn wait_cfg(mut control: Control) -> Control
    ensures { result ≡ wait_cfg control }
{
    if in_exchange(control.phase) {
        control = left(control);
    }
    control.phase = Phase::WaitCfg;
    control
}

// What becomes of the outputs: leaving DATA_EXCH publishes zeros.
pub fn zeros_if_left(control: Control) -> OutputsDeed
    ensures { result ≡ zeros_if_left control }
{
    if in_exchange(control.phase) {
        return OutputsDeed::Zeros;
    }
    OutputsDeed::Keep
}

// DATA_EXCH entered, event 1.
#[tactic(auto, unfolding(crate::specs::Phases::data_exch))]
pub fn data_exch(mut control: Control) -> Control
    ensures { result ≡ data_exch control }
{
    control.phase = Phase::DataExch;
    control.events = control.events.raise(Events::DATA_EXCHANGE);
    control
}
