// The diagnosis octets that the station makes, and a new diagnosis of the user's.
ghost use Rattle.std.specs.Prelude.{◌≡◌};
ghost use Rattle.rules.specs.Diagnosis.{status1, status2, status3, header_of, present_flags, is_delayed, diagnosed, delaying, caught_up};

use crate::bits::bit;
use crate::phases::{in_exchange, in_wait_prm};
use buffers::events::Events;
use state::control::{Control, Diagnosis, Flags};
use state::state::Header;

// Octet 0: bit 1 not DATA_EXCH, 2 Cfg_Fault, 3 Ext_Diag, 6 Prm_Fault; bit 4, Not_Supported, is never set.
fn status1(control: Control) -> u8
    ensures { result ≡ status1 control }
{
    let flags = control.flags;
    2 * u8::from(!in_exchange(control.phase))
        + 4 * u8::from(flags.cfg_fault)
        + 8 * u8::from(flags.ext_diag)
        + 64 * u8::from(flags.prm_fault)
}

// Octet 1: bit 0 WAIT_PRM, 1 Stat_Diag, 2 always set, 3 watchdog on, 4 freeze, 5 sync.
fn status2(control: Control) -> u8
    ensures { result ≡ status2 control }
{
    u8::from(in_wait_prm(control.phase))
        + 2 * u8::from(control.flags.stat_diag)
        + 4
        + 8 * u8::from(control.watchdog.reload != 0)
        + 16 * u8::from(control.modes.freeze)
        + 32 * u8::from(control.modes.sync)
}

// Octet 2: bit 7 overflow.
fn status3(control: Control) -> u8
    ensures { result ≡ status3 control }
{
    128 * u8::from(control.flags.overflow)
}

// Octets 0 to 3; octet 3 is the owner or FF.
#[tactic(auto, unfolding(crate::specs::Diagnosis::header_of))]
pub fn header_of(control: Control) -> Header
    ensures { result ≡ header_of control }
{
    Header {
        status1: status1(control),
        status2: status2(control),
        status3: status3(control),
        master: control.owner,
    }
}

// The flags in force, in the bits that a new diagnosis takes them in.
pub fn present_flags(flags: Flags) -> u8
    ensures { result ≡ present_flags flags }
{
    u8::from(flags.ext_diag) + 2 * u8::from(flags.stat_diag) + 4 * u8::from(flags.overflow)
}

// A new diagnosis is delayed.
pub fn is_delayed(diagnosis: Diagnosis) -> bool
    ensures { result ≡ is_delayed diagnosis }
{
    diagnosis.delayed_count != 0
}

// A new diagnosis takes effect: its count and flags, Diag_Flag, event 12; nothing is delayed any more.
#[tactic(auto, unfolding(crate::specs::Diagnosis::diagnosed))]
pub fn diagnosed(mut control: Control, count: u8, flags: u8) -> Control
    ensures { result ≡ diagnosed control count flags }
{
    control.flags.ext_diag = bit(flags, 0);
    control.flags.stat_diag = bit(flags, 1);
    control.flags.overflow = bit(flags, 2);
    control.flags.diag_flag = true;
    control.diagnosis = Diagnosis {
        count,
        delayed_count: 0,
        delayed_flags: 0,
    };
    control.events = control.events.raise(Events::DIAGNOSIS);
    control
}

// While a Slave_Diag reply is unfinished all of it waits.
#[tactic(auto, unfolding(crate::specs::Diagnosis::delaying))]
pub fn delaying(mut control: Control, count: u8, flags: u8) -> Control
    ensures { result ≡ delaying control count flags }
{
    control.diagnosis.delayed_count = count;
    control.diagnosis.delayed_flags = flags;
    control
}

// What waited takes effect.
pub fn caught_up(control: Control) -> Control
    ensures { result ≡ caught_up control }
{
    diagnosed(
        control,
        control.diagnosis.delayed_count,
        control.diagnosis.delayed_flags,
    )
}
