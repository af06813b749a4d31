// Sync and freeze: what the modes make of a Data_Exchange, what Global_Control commands, and where they end.
ghost use Rattle.std.specs.Prelude.{◌≡◌, ◌&&◌, ◌||◌};
ghost use Rattle.rules.specs.Modes.{ended_modes, allowed_modes, exchange_outputs, exchange_inputs, switched, commanded_modes, commanded_outputs, commanded_inputs, announced};

use crate::bits::bit;
use crate::outcome::{InputsDeed, OutputsDeed};
use buffers::events::Events;
use state::control::Modes;

// Both modes end; what Set_Prm allowed stays until the next good one.
pub fn ended(m: Modes) -> Modes
    ensures { result ≡ ended_modes m }
{
    Modes {
        sync: false,
        freeze: false,
        ..m
    }
}

// Bits 5 and 4 of octet 0 of a good Set_Prm allow sync and freeze.
pub fn allowed(m: Modes, status: u8) -> Modes
    ensures { result ≡ allowed_modes m status }
{
    Modes {
        sync_allowed: bit(status, 5),
        freeze_allowed: bit(status, 4),
        ..m
    }
}

// A Data_Exchange in sync: its outputs are held back.
pub fn exchange_outputs(m: Modes) -> OutputsDeed
    ensures { result ≡ exchange_outputs m }
{
    if m.sync {
        return OutputsDeed::HoldBack;
    }
    OutputsDeed::Publish
}

// A Data_Exchange while frozen: the inputs stay. Not one function with exchange_outputs: what is done is of another type.
pub fn exchange_inputs(m: Modes) -> InputsDeed
    ensures { result ≡ exchange_inputs m }
{
    if m.freeze {
        return InputsDeed::Keep;
    }
    InputsDeed::Bring
}

// A mode by its pair of bits, where it is allowed: the ending one acts where both are set.
fn switched(allowed: bool, on: bool, ending: bool, beginning: bool) -> bool
    ensures { result ≡ switched allowed on ending beginning }
{
    if !allowed {
        return on;
    }
    if ending {
        return false;
    }
    if beginning {
        return true;
    }
    on
}

// Global_Control: the modes after octet 0.
pub fn commanded(m: Modes, first: u8) -> Modes
    ensures { result ≡ commanded_modes m first }
{
    Modes {
        sync: switched(m.sync_allowed, m.sync, bit(first, 4), bit(first, 5)),
        freeze: switched(m.freeze_allowed, m.freeze, bit(first, 2), bit(first, 3)),
        ..m
    }
}

// Whether a mode is commanded by its pair of bits, where it is allowed.
fn commands(allowed: bool, ending: bool, beginning: bool) -> bool
    ensures { result ≡ (allowed && (beginning || ending)) }
{
    allowed & (beginning | ending)
}

// Global_Control: clear publishes zeros; else sync and unsync publish what is held back, if something is.
pub fn commanded_outputs(m: Modes, withheld: bool, first: u8) -> OutputsDeed
    ensures { result ≡ commanded_outputs m withheld first }
{
    if bit(first, 1) {
        return OutputsDeed::Zeros;
    }
    if commands(m.sync_allowed, bit(first, 4), bit(first, 5)) & withheld {
        return OutputsDeed::Release;
    }
    OutputsDeed::Keep
}

// Global_Control: freeze and unfreeze bring new inputs.
pub fn commanded_inputs(m: Modes, first: u8) -> InputsDeed
    ensures { result ≡ commanded_inputs m first }
{
    if commands(m.freeze_allowed, bit(first, 2), bit(first, 3)) {
        return InputsDeed::Bring;
    }
    InputsDeed::Keep
}

// Event 13 where something is published.
pub fn announced(deed: OutputsDeed, events: Events) -> Events
    ensures { result ≡ announced deed events }
{
    match deed {
        OutputsDeed::Keep | OutputsDeed::HoldBack => events,
        OutputsDeed::Publish | OutputsDeed::Release | OutputsDeed::Zeros => {
            events.raise(Events::OUTPUTS)
        }
    }
}
