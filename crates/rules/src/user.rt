// Judging the sets, on the control part.
ghost use Rattle.std.specs.Prelude.{◌≡◌};
ghost use Rattle.rules.specs.User.{changing_sets, judged_parameters, judged_configuration};

use crate::outcome::{Outcome, SetDeed};
use crate::phases::{cfg_fault, data_exch, drawing, prm_fault};
use buffers::events::Events;
use state::control::Control;
use state::state::Drawn;

// Only these sets change.
fn changing_sets(control: Control, parameters: SetDeed, configuration: SetDeed) -> Outcome
    ensures { result ≡ changing_sets control parameters configuration }
{
    Outcome {
        parameters,
        configuration,
        ..drawing(control, Drawn::Nothing)
    }
}

// Judge parameters: a newer set that waits is shown instead; else the set is closed, and bad: Prm_Fault, WAIT_PRM, good:
// parameter OK.
#[tactic(auto, unfolding(crate::specs::User::judged_parameters))]
pub fn judged_parameters(mut control: Control, waits: bool, good: bool) -> Outcome
    ensures { result ≡ judged_parameters control waits good }
{
    if waits {
        return changing_sets(control, SetDeed::Advance, SetDeed::Keep);
    }
    control.events = control.events.clear(Events::PARAMETERS);
    if good {
        control.flags.parameters_good = true;
        return changing_sets(control, SetDeed::Drop, SetDeed::Keep);
    }
    prm_fault(control, Drawn::Nothing)
}

// Judge configuration: likewise; bad: Cfg_Fault, WAIT_PRM, good: DATA_EXCH. Not one function for both kinds: every line differs.
#[tactic(auto, unfolding(crate::specs::User::judged_configuration))]
pub fn judged_configuration(mut control: Control, waits: bool, good: bool) -> Outcome
    ensures { result ≡ judged_configuration control waits good }
{
    if waits {
        return changing_sets(control, SetDeed::Keep, SetDeed::Advance);
    }
    control.events = control.events.clear(Events::CONFIGURATION);
    if good {
        return changing_sets(data_exch(control), SetDeed::Keep, SetDeed::Drop);
    }
    cfg_fault(control, Drawn::Nothing)
}
