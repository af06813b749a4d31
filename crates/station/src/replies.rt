// The reply in progress: how it is drawn, and where its data octets are read.
#![tactic(auto, using(crate::proofs::SentOverMemory::diagnosis_room, crate::proofs::SentOverMemory::inputs_room, crate::proofs::SentOverMemory::outputs_room, crate::proofs::SentOverMemory::get_cfg_in))]

ghost use Rattle.std.specs.Prelude.{◌≡◌, ◌+◌, ◌≤◌, length, slice_index};
ghost use Rattle.buffers.specs.Roles.{held_of};
ghost use Rattle.octets.specs.Part.{part};
ghost use Rattle.state.specs.declared.state.State.{State};
ghost use Rattle.state.specs.Unpack.{unpacked};
ghost use Rattle.steps.specs.Replies.{servicing, exchange_sender, sender_for, reply_for, own_place, user_place, header_at, content_at, reply_point, datum_at, asked_for};

use points::Point;
use rules::diagnosis::header_of;
use rules::replies::{exchange_fc, is_exchange};
use state::control::Control;
use state::layout::{diagnosis_at, get_cfg_at, inputs_at, outputs_at};
use state::memory::Held;
use state::setup::Setup;
use state::state::{Drawn, Header, Reply, State};
use telegram::Kind;
use telegram::sender::Sender;

// SD2 with bit 7 in both addresses: DSAP and SSAP stand before n data octets.
fn servicing(setup: Setup, master: u8, n: u8) -> Sender
    ensures { result ≡ servicing setup master n }
{
    let da = master.wrapping_add(128);
    let sa = setup.address.wrapping_add(128);
    Sender::telegram(Kind::Sd2, da, sa, 0x08, n.wrapping_add(2))
}

// The sender of the reply to Data_Exchange: the inputs, or without inputs E5, or one octet while Diag_Flag.
fn exchange_sender(setup: Setup, control: Control, master: u8) -> Sender
    ensures { result ≡ exchange_sender setup control master }
{
    let fc = exchange_fc(control);
    if setup.input_len != 0 {
        return Sender::telegram(Kind::Sd2, master, setup.address, fc, setup.input_len);
    }
    if control.flags.diag_flag {
        return Sender::telegram(Kind::Sd2, master, setup.address, fc, 1);
    }
    Sender::single()
}

// The sender of each reply to a master, by the setup and the control part of any state.
fn sender_for(drawn: Drawn, setup: Setup, control: Control, master: u8) -> Sender
    ensures { (s : State) → s.setup ≡ setup → s.control ≡ control → result ≡ sender_for drawn s master }
{
    match drawn {
        Drawn::Nothing => Sender::empty(),
        Drawn::Acknowledge => Sender::single(),
        Drawn::Status => Sender::telegram(Kind::Sd1, master, setup.address, 0x00, 0),
        Drawn::Rejected => Sender::telegram(Kind::Sd1, master, setup.address, 0x03, 0),
        Drawn::Exchange => exchange_sender(setup, control, master),
        Drawn::Inputs => servicing(setup, master, setup.input_len),
        Drawn::Outputs => servicing(setup, master, setup.output_len),
        Drawn::Configuration => servicing(setup, master, setup.get_cfg_len),
        Drawn::Diagnosis => servicing(setup, master, control.diagnosis.count),
    }
}

// A reply as it is drawn, by the parts of any state that it needs: the place of the held outputs and the diagnosis header are fixed here.
#[tactic(auto, unfolding(steps::specs::Replies::reply_for))]
pub fn draw(drawn: Drawn, setup: Setup, control: Control, held: u8, master: u8) -> Reply
    ensures { (s : State) → s.setup ≡ setup → s.control ≡ control → held_of s.outputs.set.place ≡ held → result ≡ reply_for drawn s master }
{
    Reply {
        drawn,
        sender: sender_for(drawn, setup, control, master),
        place: held,
        header: header_of(control),
    }
}

// The same of the whole state.
pub fn reply_for(drawn: Drawn, s: State, master: u8) -> Reply
    ensures { result ≡ reply_for drawn s master }
{
    draw(drawn, s.setup, s.control, s.outputs.set.held(), master)
}

// Which of the two diagnosis buffers is the controller's.
fn own_place(swapped: bool) -> u8
    ensures { (result ≡ own_place swapped) × (result ≤ 1) }
{
    u8::from(swapped)
}

// And which is the user's.
pub fn user_place(swapped: bool) -> u8
    ensures { (result ≡ user_place swapped) × (result ≤ 1) }
{
    u8::from(!swapped)
}

// The station's own diagnosis octets 0 to 5.
fn header_at(header: Header, ident: u16, i: u8) -> u8
    ensures { result ≡ header_at header ident i }
{
    let [high, low] = ident.to_be_bytes();
    match i {
        0 => header.status1,
        1 => header.status2,
        2 => header.status3,
        3 => header.master,
        4 => high,
        _ => low,
    }
}

// Octet i of a buffer of len octets, 0 past its end. By the place and not by a slice of the buffer: no more than this octet is looked at.
fn octet_in(mem: &[u8], from: usize, len: u8, i: u8) -> u8
    requires { from + len ≤ length mem.now }
    ensures { result ≡ slice_index (part mem.now from len) i }
{
    if i < len {
        return mem[from + i as usize];
    }
    0
}

// Data octet i of a diagnosis reply behind DSAP and SSAP.
fn diagnosis_octet(held: Held, i: u8) -> u8
    ensures { result ≡ content_at Drawn.Diagnosis (unpacked held.entry.image.octets.now) held.entry.image.octets.now i }
{
    let image = held.image;
    let setup = image.setup();
    if i < 6 {
        return header_at(image.reply().header, setup.ident, i);
    }
    let from = diagnosis_at(setup, own_place(image.swapped()));
    octet_in(image.octets, from, setup.diagnosis_len, i)
}

// Octet i of the inputs that are sent.
fn input_octet(held: Held, i: u8) -> u8
    ensures { result ≡ content_at Drawn.Inputs (unpacked held.entry.image.octets.now) held.entry.image.octets.now i }
{
    let image = held.image;
    let setup = image.setup();
    let from = inputs_at(setup, image.inputs().fill());
    octet_in(image.octets, from, setup.input_len, i)
}

// Octet i of the outputs that the reply leaves from.
fn output_octet(held: Held, i: u8) -> u8
    ensures { result ≡ content_at Drawn.Outputs (unpacked held.entry.image.octets.now) held.entry.image.octets.now i }
{
    let image = held.image;
    let setup = image.setup();
    let from = outputs_at(setup, image.reply().place);
    octet_in(image.octets, from, setup.output_len, i)
}

// Octet i of what Get_Cfg sends.
fn get_cfg_octet(held: Held, i: u8) -> u8
    ensures { result ≡ content_at Drawn.Configuration (unpacked held.entry.image.octets.now) held.entry.image.octets.now i }
{
    let image = held.image;
    let setup = image.setup();
    octet_in(image.octets, get_cfg_at(setup), setup.get_cfg_len, i)
}

// Data octet i of the reply behind DSAP and SSAP.
fn content_at(drawn: Drawn, held: Held, i: u8) -> u8
    ensures { result ≡ content_at drawn (unpacked held.entry.image.octets.now) held.entry.image.octets.now i }
{
    match drawn {
        Drawn::Nothing | Drawn::Acknowledge | Drawn::Status | Drawn::Rejected => 0,
        Drawn::Exchange | Drawn::Inputs => input_octet(held, i),
        Drawn::Outputs => output_octet(held, i),
        Drawn::Configuration => get_cfg_octet(held, i),
        Drawn::Diagnosis => diagnosis_octet(held, i),
    }
}

// The service point that a reply comes from, 0 where it comes from none.
fn reply_point(drawn: Drawn) -> u8
    ensures { result ≡ reply_point drawn }
{
    match drawn {
        Drawn::Inputs => Point::ReadInputs as u8,
        Drawn::Outputs => Point::ReadOutputs as u8,
        Drawn::Configuration => Point::GetCfg as u8,
        Drawn::Diagnosis => Point::SlaveDiag as u8,
        _ => 0,
    }
}

// Data octet k of the reply: 3E and the service point first, but in the reply to Data_Exchange.
#[tactic(auto, unfolding(steps::specs::Replies::datum_at))]
fn datum_at(held: Held, k: u8) -> u8
    ensures { result ≡ datum_at (unpacked held.entry.image.octets.now) held.entry.image.octets.now k }
{
    let drawn = held.image.reply().drawn;
    if is_exchange(drawn) {
        return input_octet(held, k);
    }
    if k == 0 {
        return 0x3E;
    }
    if k == 1 {
        return reply_point(drawn);
    }
    content_at(drawn, held, k - 2)
}

// The data octet that the sender asks for, read where the memory has it: only what the reply needs is unpacked.
pub fn asked_for(held: Held) -> u8
    ensures { result ≡ asked_for (unpacked held.entry.image.octets.now) held.entry.image.octets.now }
{
    match held.image.reply().sender.asks() {
        Some(k) => datum_at(held, k),
        None => 0,
    }
}
