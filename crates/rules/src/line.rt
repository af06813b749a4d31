// The clear, the watchdog and the Tick.
ghost use Rattle.std.specs.Prelude.{◌≡◌};
ghost use Rattle.buffers.specs.Events.{watchdog_event};
ghost use Rattle.rules.specs.Control.{raise};
ghost use Rattle.rules.specs.Line.{clearing, clear_on, clear_noted, counts, with_remaining, ticked};

use crate::outcome::Outcome;
use crate::phases::{drawing, entering_wait_prm, in_wait_prm};
use buffers::events::Events;
use state::control::Control;
use state::state::Drawn;

// A clear enters WAIT_PRM, and none is noted any more.
pub fn clearing(mut control: Control) -> Outcome
    ensures { result ≡ clearing control }
{
    control.noted = false;
    entering_wait_prm(control, Drawn::Nothing)
}

// On a busy line a clear is noted.
pub fn clear_on(busy: bool, mut control: Control) -> Outcome
    ensures { result ≡ clear_on busy control }
{
    if busy {
        control.noted = true;
        return drawing(control, Drawn::Nothing);
    }
    clearing(control)
}

// A noted clear is carried out when the line is idle.
pub fn clear_noted(busy: bool, control: Control) -> Outcome
    ensures { result ≡ clear_noted busy control }
{
    if control.noted & !busy {
        return clearing(control);
    }
    drawing(control, Drawn::Nothing)
}

// In WAIT_CFG or DATA_EXCH with the watchdog on.
pub fn counts(control: Control) -> bool
    ensures { result ≡ counts control }
{
    !in_wait_prm(control.phase) & (control.watchdog.reload != 0)
}

// The watchdog at 0: event 3 and a clear.
fn expired(busy: bool, mut control: Control) -> Outcome
    ensures { result ≡ clear_on busy (raise (with_remaining control 0) watchdog_event) }
{
    control.events = control.events.raise(Events::WATCHDOG);
    control.watchdog.remaining = 0;
    clear_on(busy, control)
}

// A Tick where no clear is noted: the watchdog counts down.
#[tactic(auto, unfolding(crate::specs::Line::ticked))]
pub fn ticked(busy: bool, mut control: Control) -> Outcome
    ensures { result ≡ ticked busy control }
{
    if !counts(control) {
        return drawing(control, Drawn::Nothing);
    }
    if control.watchdog.remaining <= 1 {
        return expired(busy, control);
    }
    control.watchdog.remaining -= 1;
    drawing(control, Drawn::Nothing)
}
