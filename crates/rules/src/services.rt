// The services: what comes of each, on the control part. opened: a set of that kind is open.
ghost use Rattle.std.specs.Prelude.{◌≡◌, cond};
ghost use Rattle.state.specs.declared.state.Drawn.TheVariants.{Rejected};
ghost use Rattle.rules.specs.Control.{in_exchange};
ghost use Rattle.rules.specs.Phases.{drawing};
ghost use Rattle.rules.specs.Requests.{service_of};
ghost use Rattle.rules.specs.Services.{other_owns, other_ident, showing, parametrized, good_prm, set_prm, good_cfg, chk_cfg, exchanges, good_exchange, data_exchange, slave_diag, read_inputs, read_outputs, controls, storing, obeyed, global_control, serve, outcome_by};

use crate::bits::bit;
use crate::modes::{
    allowed, announced, commanded, commanded_inputs, commanded_outputs, exchange_inputs,
    exchange_outputs,
};
use crate::outcome::{Outcome, SetDeed};
use crate::phases::{
    cfg_fault, drawing, entering_wait_prm, in_exchange, prm_fault, wait_cfg, zeros_if_left,
};
use crate::request::{Data, Occupied, Prm, Request, Service};
use crate::requests::{acts, master_of, refilled};
use crate::retries::{chained, repeated, repeats};
use crate::watchdog::{bad_watchdog, ticks_of};
use buffers::events::Events;
use state::control::{Control, Flags, Watchdog};
use state::setup::Setup;
use state::state::Drawn;

// Set_Prm: another master owns.
fn other_owns(control: Control, master: u8) -> bool
    ensures { result ≡ other_owns control master }
{
    (control.owner != Control::NO_OWNER) & (control.owner != master)
}

// Set_Prm: octets 4 and 5 are not the ident, high first.
fn other_ident(setup: Setup, p: Prm) -> bool
    ensures { result ≡ other_ident setup p }
{
    u16::from_be_bytes([p.ident_high, p.ident_low]) != setup.ident
}

// A set is shown if none is open, with its event.
fn showing(events: Events, opened: bool, event: u8) -> Events
    ensures { result ≡ showing events opened event }
{
    if opened {
        return events;
    }
    events.raise(event)
}

// Good Set_Prm: owner, WAIT_CFG, the fault bits and parameter OK cleared, group, watchdog, the events of the sets, sync and freeze
// allowed or not.
#[tactic(auto, unfolding(crate::specs::Services::parametrized))]
fn parametrized(control: Control, opened: bool, r: Request, p: Prm) -> Control
    ensures { result ≡ parametrized control opened r p }
{
    let entered = wait_cfg(control);
    let dropped = entered.events.clear(Events::CONFIGURATION);
    let ticks = ticks_of(r.count, p);
    Control {
        phase: entered.phase,
        owner: master_of(r),
        group: p.group,
        watchdog: Watchdog {
            reload: ticks,
            remaining: ticks,
        },
        flags: Flags {
            prm_fault: false,
            cfg_fault: false,
            parameters_good: false,
            ..control.flags
        },
        events: showing(dropped, opened, Events::PARAMETERS),
        modes: allowed(entered.modes, p.status),
        ..control
    }
}

// Good Set_Prm: E5, configuration sets dropped, data shown.
fn good_prm(control: Control, opened: bool, r: Request, p: Prm) -> Outcome
    ensures { result ≡ good_prm control opened r p }
{
    Outcome {
        outputs: zeros_if_left(control),
        parameters: SetDeed::Receive,
        configuration: SetDeed::Drop,
        ..drawing(parametrized(control, opened, r, p), Drawn::Acknowledge)
    }
}

// Set_Prm, DSAP 61, its tests in order.
#[tactic(auto, unfolding(crate::specs::Services::set_prm))]
pub fn set_prm(setup: Setup, control: Control, opened: bool, r: Request, p: Prm) -> Outcome
    ensures { result ≡ set_prm setup control opened r p }
{
    if other_owns(control, master_of(r)) {
        return drawing(control, Drawn::Rejected);
    }
    if !(7..=setup.parameter_len).contains(&r.count) {
        return prm_fault(control, Drawn::Acknowledge);
    }
    if bit(p.status, 6) {
        return entering_wait_prm(control, Drawn::Acknowledge);
    }
    if !bit(p.status, 7) {
        return drawing(control, Drawn::Acknowledge);
    }
    if other_ident(setup, p) | bad_watchdog(p) {
        return prm_fault(control, Drawn::Acknowledge);
    }
    good_prm(control, opened, r, p)
}

// Good Chk_Cfg: E5, WAIT_CFG, data shown.
fn good_cfg(control: Control, opened: bool) -> Outcome
    ensures { result ≡ good_cfg control opened }
{
    let mut entered = wait_cfg(control);
    entered.events = showing(entered.events, opened, Events::CONFIGURATION);
    Outcome {
        outputs: zeros_if_left(control),
        configuration: SetDeed::Receive,
        ..drawing(entered, Drawn::Acknowledge)
    }
}

// Chk_Cfg, DSAP 62.
#[tactic(auto, unfolding(crate::specs::Services::chk_cfg))]
pub fn chk_cfg(setup: Setup, control: Control, opened: bool, r: Request) -> Outcome
    ensures { result ≡ chk_cfg setup control opened r }
{
    if control.owner != master_of(r) {
        return drawing(control, Drawn::Rejected);
    }
    if !(1..=setup.configuration_len).contains(&r.count) {
        return cfg_fault(control, Drawn::Acknowledge);
    }
    good_cfg(control, opened)
}

// From the owner in DATA_EXCH.
pub fn exchanges(control: Control, r: Request) -> bool
    ensures { result ≡ exchanges control r }
{
    (control.owner == master_of(r)) & in_exchange(control.phase)
}

// The data is published, event 13, or held back in sync; new inputs come unless frozen; the reply to it is drawn.
fn good_exchange(mut control: Control) -> Outcome
    ensures { result ≡ good_exchange control }
{
    let outputs = exchange_outputs(control.modes);
    control.events = announced(outputs, control.events);
    Outcome {
        outputs,
        inputs: exchange_inputs(control.modes),
        ..drawing(control, Drawn::Exchange)
    }
}

// Data_Exchange, functions 12 and 13 without extension.
#[tactic(auto, unfolding(crate::specs::Services::data_exchange))]
pub fn data_exchange(setup: Setup, control: Control, r: Request) -> Outcome
    ensures { result ≡ data_exchange setup control r }
{
    if !exchanges(control, r) {
        return drawing(control, Drawn::Rejected);
    }
    if r.count != setup.output_len {
        return cfg_fault(control, Drawn::Rejected);
    }
    good_exchange(control)
}

// Slave_Diag, DSAP 60: the owner's clears Diag_Flag unless Stat_Diag.
#[tactic(auto, unfolding(crate::specs::Services::slave_diag))]
pub fn slave_diag(mut control: Control, r: Request) -> Outcome
    ensures { result ≡ slave_diag control r }
{
    if (control.owner == master_of(r)) & !control.flags.stat_diag {
        control.flags.diag_flag = false;
    }
    drawing(control, Drawn::Diagnosis)
}

// The reply of Read_Inputs or Read_Outputs, RS outside DATA_EXCH.
fn reading(control: Control, drawn: Drawn) -> Outcome
    ensures { result ≡ cond (in_exchange control) (drawing control drawn) (drawing control Rejected) }
{
    if in_exchange(control.phase) {
        return drawing(control, drawn);
    }
    drawing(control, Drawn::Rejected)
}

// Read_Inputs, DSAP 56: RS outside DATA_EXCH.
pub fn read_inputs(control: Control) -> Outcome
    ensures { result ≡ read_inputs control }
{
    reading(control, Drawn::Inputs)
}

// Read_Outputs, DSAP 57: RS outside DATA_EXCH.
pub fn read_outputs(control: Control) -> Outcome
    ensures { result ≡ read_outputs control }
{
    reading(control, Drawn::Outputs)
}

// Global_Control: two octets, from the owner in DATA_EXCH, octet 1 zero or sharing a bit with the group.
fn controls(control: Control, r: Request, second: u8) -> bool
    ensures { result ≡ controls control r second }
{
    exchanges(control, r) & (r.count == 2) & ((second == 0) | ((second & control.group) != 0))
}

// Global_Control: octet 0 is stored if it differs from the last one, event 8.
fn storing(mut control: Control, first: u8) -> Control
    ensures { result ≡ storing control first }
{
    if first == control.stored {
        return control;
    }
    control.stored = first;
    control.events = control.events.raise(Events::CONTROL);
    control
}

// Global_Control: octet 0 is carried out. withheld: something is held back.
fn obeyed(control: Control, withheld: bool, first: u8) -> Outcome
    ensures { result ≡ obeyed control withheld first }
{
    let outputs = commanded_outputs(control.modes, withheld, first);
    let mut stored = storing(control, first);
    stored.events = announced(outputs, stored.events);
    stored.modes = commanded(control.modes, first);
    Outcome {
        outputs,
        inputs: commanded_inputs(control.modes, first),
        ..drawing(stored, Drawn::Nothing)
    }
}

// Global_Control, DSAP 58, functions 4 and 6.
#[tactic(auto, unfolding(crate::specs::Services::global_control))]
pub fn global_control(
    control: Control,
    withheld: bool,
    r: Request,
    first: u8,
    second: u8,
) -> Outcome
    ensures { result ≡ global_control control withheld r first second }
{
    if controls(control, r, second) {
        return obeyed(control, withheld, first);
    }
    drawing(control, Drawn::Nothing)
}

// What comes of a service; occupied: what the buffers are occupied by. One parameter each: the crates above hand them in so.
pub fn serve(
    service: Service,
    setup: Setup,
    control: Control,
    occupied: Occupied,
    r: Request,
    octets: Data,
) -> Outcome
    ensures { result ≡ serve service setup control occupied r octets }
{
    match service {
        Service::Nothing => drawing(control, Drawn::Nothing),
        Service::Status => drawing(control, Drawn::Status),
        Service::Reject => drawing(control, Drawn::Rejected),
        Service::GlobalControl => global_control(
            control,
            occupied.outputs,
            r,
            octets.first,
            octets.second,
        ),
        Service::DataExchange => data_exchange(setup, control, r),
        Service::SetPrm => set_prm(setup, control, occupied.parameters, r, octets.prm),
        Service::ChkCfg => chk_cfg(setup, control, occupied.configuration, r),
        Service::SlaveDiag => slave_diag(control, r),
        Service::GetCfg => drawing(control, Drawn::Configuration),
        Service::ReadInputs => read_inputs(control),
        Service::ReadOutputs => read_outputs(control),
    }
}

// What comes of a telegram, which refills the owner's watchdog: a repeat draws again what the earlier request drew; of any other the
// service is served, and a request goes into the chain or ends it.
pub fn outcome_by(
    service: Service,
    setup: Setup,
    control: Control,
    occupied: Occupied,
    r: Request,
    octets: Data,
) -> Outcome
    requires { service ≡ service_of setup r }
    ensures { result ≡ outcome_by setup control occupied r octets }
{
    if acts(setup, r) & repeats(control.chain, r) {
        return repeated(setup, control, r);
    }
    let refilled = refilled(setup, control, r);
    chained(
        setup,
        r,
        serve(service, setup, refilled, occupied, r, octets),
    )
}
