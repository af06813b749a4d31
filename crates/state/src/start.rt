// Start: what it asks of a setup, the first state, and what it leaves.
ghost use Rattle.std.specs.Prelude.{◌≡◌, ◌≤◌, length};
ghost use Rattle.channels.specs.Setting.{length_octets, lengths_given};
ghost use Rattle.state.specs.Layout.{end_of, last_end};
ghost use Rattle.state.specs.Sound.{Ranged};
ghost use Rattle.state.specs.Start.{given_by, lengths_ok, asked, first_control, no_sets, no_reply, initial_state, wiped, laid_out};

use crate::answer::Refusal;
use crate::chain::Chain;
use crate::control::{Control, Diagnosis, Flags, Modes, Phase, Watchdog};
use crate::setup::{Given, Setup};
use crate::state::{Drawn, Header, Incoming, Outputs, Reply, Sets, State};
use crate::{image, layout};
use buffers::events::Events;
use buffers::quad::Quad;
use buffers::triple::Triple;
use channels::setting;
use telegram::reader::Reader;
use telegram::sender::Sender;

// The ranges of the lengths and of the slice's, and that not both of outputs and inputs are 0.
#[tactic(auto, unfolding(crate::specs::Start::lengths_ok))]
fn lengths_ok(given: Given, get_cfg: usize) -> bool
    ensures { result ≡ lengths_ok (given_by given get_cfg) }
{
    !((given.output_len == 0) & (given.input_len == 0))
        & (given.output_len <= 244)
        & (given.input_len <= 244)
        & ((7 <= given.parameter_len) & (given.parameter_len <= 244))
        & ((1 <= given.configuration_len) & (given.configuration_len <= 244))
        & ((6 <= given.diagnosis_len) & (given.diagnosis_len <= 244))
        & ((1 <= get_cfg) & (get_cfg <= 244))
}

// The numbers as they are kept.
fn narrowed(given: Given, get_cfg: usize) -> Setup
    requires { Ranged (given_by given get_cfg) }
    ensures { result ≡ given_by given get_cfg }
{
    Setup {
        address: given.address as u8,
        ident: given.ident,
        output_len: given.output_len as u8,
        input_len: given.input_len as u8,
        parameter_len: given.parameter_len as u8,
        configuration_len: given.configuration_len as u8,
        diagnosis_len: given.diagnosis_len as u8,
        get_cfg_len: get_cfg as u8,
    }
}

// The setup from the numbers that Start is given, or which of them is refused. get_cfg: how many octets Get_Cfg sends.
pub fn setup_of(given: Given, get_cfg: usize, channels: &[u8]) -> Result<Setup, Refusal>
    ensures { result ≡ asked (given_by given get_cfg) channels.now }
{
    if 126 < given.address {
        return Err(Refusal::Address);
    }
    if !lengths_ok(given, get_cfg) {
        return Err(Refusal::Length);
    }
    // Not joined with the test before it: this one is a loop, and a Start that is refused there does not pay for it.
    if !setting::lengths_ok(channels) {
        return Err(Refusal::Length);
    }
    Ok(narrowed(given, get_cfg))
}

// WAIT_PRM, no owner, no flags, no events, diagnosis count 6, no chain.
fn first_control() -> Control
    ensures { result ≡ first_control }
{
    Control {
        phase: Phase::WaitPrm,
        owner: Control::NO_OWNER,
        group: 0,
        stored: 0,
        watchdog: Watchdog::default(),
        flags: Flags::default(),
        events: Events::none(),
        noted: false,
        diagnosis: Diagnosis {
            count: 6,
            ..Diagnosis::default()
        },
        modes: Modes::default(),
        chain: Chain::none(),
    }
}

// Nothing shown, nothing waits.
fn no_sets() -> Sets
    ensures { result ≡ no_sets }
{
    Sets {
        set: Triple::new(),
        shown: 0,
        waiting: 0,
    }
}

// Nothing to send.
pub fn no_reply() -> Reply
    ensures { result ≡ no_reply }
{
    Reply {
        drawn: Drawn::Nothing,
        sender: Sender::empty(),
        place: 0,
        header: Header::default(),
    }
}

// The state after Start, which waits for a gap.
pub fn initial(setup: Setup) -> State
    ensures { result ≡ initial_state setup }
{
    State {
        setup,
        control: first_control(),
        outputs: Outputs {
            set: Quad::new(),
            zeros: false,
        },
        inputs: Triple::new(),
        parameters: no_sets(),
        configuration: no_sets(),
        swapped: false,
        incoming: Incoming {
            reader: Reader::off(),
            first: 0,
            second: 0,
        },
        reply: no_reply(),
    }
}

// Zeros up to the end of all buffers, then the slice in its own.
fn wipe(mem: &mut [u8], setup: Setup, get_cfg: &[u8], end: usize)
    requires { (end_of setup ≤ end) × (end ≤ length mem.old) × (setup.get_cfg_len ≡ length get_cfg.now) }
    ensures { mem.new ≡ wiped mem.old setup get_cfg.now end }
{
    octets::clear_at(mem, layout::IMAGE_LENGTH, end - layout::IMAGE_LENGTH);
    octets::copy_at(mem, layout::get_cfg_at(setup), get_cfg);
}

// Where the last buffer ends, that of a channel or another one.
pub fn last_end(setup: Setup, channels: &[u8]) -> usize
    requires { length channels.now ≡ length_octets }
    ensures { result ≡ last_end (lengths_given channels.now) setup }
{
    layout::end_of(setup) + setting::room_for(channels)
}

// The first state in front of the wiped buffers, and the channels set up, in a memory that has room for them. end: of the last buffer.
pub fn lay_out(mem: &mut [u8], setup: Setup, get_cfg: &[u8], channels: &[u8], end: usize)
    requires { (end ≡ last_end (lengths_given channels.now) setup) × (end ≤ length mem.old) × (length channels.now ≡ length_octets) × (setup.get_cfg_len ≡ length get_cfg.now) }
    ensures { mem.new ≡ laid_out mem.old setup get_cfg.now channels.now }
{
    wipe(mem, setup, get_cfg, end);
    setting::set_up(mem, channels);
    image::save(initial(setup), mem);
}
