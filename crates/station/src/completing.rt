// The last octet of a telegram over the memory that holds the state; what waits for the end of the line's business is the caller's. A
// good Data_Exchange, which nearly every telegram to the station is, a telegram that does not act, which is nearly every other one on
// the line, Slave_Diag, which a master sends more often than the rest, and a repeat, which changes the watchdog alone, have ways of
// their own.
// Holds is asked of a plain &mut [u8]: it is broken between two saves, and that it holds again is no promise of a step but a theorem
// (steps/proofs/StaysUndamaged.antt).
ghost use Rattle.std.specs.Prelude.{◌≡◌, ◌≤◌, true, false, length, if◌then◌else◌};
ghost use Rattle.state.specs.Layout.{image_length};
ghost use Rattle.state.specs.Memory.{Holds, Changes};
ghost use Rattle.state.specs.Unpack.{unpacked};
ghost use Rattle.state.specs.With.{with_reply, with_chain};
ghost use Rattle.rules.specs.declared.request.Service.TheVariants.{SlaveDiag};
ghost use Rattle.rules.specs.Requests.{master_of, acts, service_of};
ghost use Rattle.rules.specs.Retries.{asks, chain_by};
ghost use Rattle.steps.specs.Reading.{request_by};
ghost use Rattle.steps.specs.Replies.{exchange_sender};
ghost use Rattle.station.specs.Completing.{completed_by, served, answered_by, is_repeat_in, is_good_exchange, exchange_drew, replied_with};

use crate::reading::{data_in, occupied, request_by};
use crate::replies::draw;
use outcomes::carry::{on_inputs, on_outputs};
use outcomes::over::carry_over;
use rules::diagnosis::header_of;
use rules::modes::{announced, exchange_inputs, exchange_outputs};
use rules::outcome::Outcome;
use rules::replies::exchange_fc;
use rules::request::{Request, Service};
use rules::requests::{acts, function_service, master_of, refilled};
use rules::retries::{asks, chain_by, repeats};
use rules::services::{exchanges, serve, slave_diag};
use state::control::Control;
use state::load::Image;
use state::memory::Held;
use state::saving::{
    save_chain, save_control, save_events, save_incoming, save_inputs, save_outputs, save_reply,
    save_ticks,
};
use state::setup::Setup;
use state::state::{Drawn, Header, Incoming, Reply};
use telegram::Kind;
use telegram::sender::Sender;

// What comes of the service that a telegram asks for: `outcome_of` without the chain, since no repeat comes here.
#[tactic(auto, using(crate::proofs::SentOverMemory::prm_in))]
fn served_in(held: Held, r: Request, service: Service) -> Outcome
    requires { service ≡ service_of (unpacked held.image.octets.now).setup r }
    ensures { result ≡ served (unpacked held.entry.image.octets.now) held.entry.image.octets.now r }
{
    let image = held.image;
    let setup = image.setup();
    let parameters = image.parameters();
    let control = refilled(setup, image.control(), r);
    let occupied = occupied(parameters, image.configuration(), image.outputs());
    let octets = data_in(image.octets, setup, image.incoming(), parameters);
    serve(service, setup, control, occupied, r, octets)
}

// If the telegram is a request, the next one is compared with it, or with none where its frame count bit does not count.
fn keep_request(mem: &mut [u8], r: Request, drawn: Drawn)
    requires { image_length ≤ length mem.old }
    ensures { Changes mem.old mem.new (λ s. with_chain s (if asks r then chain_by r drawn else s.control.chain)) }
{
    if asks(r) {
        save_chain(chain_by(r, drawn), mem);
    }
}

// An outcome carried out, the telegram read to its end, and the reply drawn, by the parts at hand: after they are written each would have to be
// read again. It is no good Data_Exchange's: what was drawn goes into the chain as it is.
fn answer(mem: &mut [u8], o: Outcome, i: Incoming, r: Request)
    requires { (Holds mem.old (unpacked mem.old)) × (acts (unpacked mem.old).setup r ≡ true) }
    ensures { mem.new ≡ answered_by mem.old i r o }
{
    let drawn = o.drawn;
    let image = Image { octets: &mem[..] };
    let setup = image.setup();
    let outputs = on_outputs(o.outputs, image.outputs());
    let reply = draw(drawn, setup, o.control, outputs.set.held(), master_of(r));
    carry_over(mem, o, r.count);
    save_incoming(i, mem);
    save_reply(reply, mem);
    keep_request(mem, r, drawn);
}

// Whether a telegram is a good Data_Exchange.
fn is_good_exchange(image: Image, r: Request, service: Service) -> bool
    requires { service ≡ service_of (unpacked image.octets.now).setup r }
    ensures { result ≡ is_good_exchange (unpacked image.entry.octets.now) r }
{
    let setup = image.setup();
    matches!(service, Service::DataExchange)
        & exchanges(image.control(), r)
        & (r.count == setup.output_len)
}

// The reply to Data_Exchange with this sender.
fn exchange_reply(sender: Sender, held: u8, header: Header) -> Reply
    ensures { result ≡ replied_with sender held header }
{
    Reply {
        drawn: Drawn::Exchange,
        sender,
        place: held,
        header,
    }
}

// The reply to a good Data_Exchange, and what it is for the chain: the inputs, or without inputs E5, or one octet while Diag_Flag. The same
// choice as for a repeat (exchange_sender), but each of the three is written by itself, so that the usual one is made of no choices
// (docs/DECISIONS.md, point 108).
fn reply_exchange(
    mem: &mut [u8],
    r: Request,
    setup: Setup,
    control: Control,
    held: u8,
    header: Header,
)
    requires { image_length ≤ length mem.old }
    ensures { Changes mem.old mem.new (λ s. with_reply (with_chain s (chain_by r (exchange_drew setup control))) (replied_with (exchange_sender setup control (master_of r)) held header)) }
{
    let master = master_of(r);
    let fc = exchange_fc(control);
    if setup.input_len != 0 {
        let sender = Sender::telegram(Kind::Sd2, master, setup.address, fc, setup.input_len);
        save_chain(chain_by(r, Drawn::Exchange), mem);
        save_reply(exchange_reply(sender, held, header), mem);
        return;
    }
    if control.flags.diag_flag {
        let sender = Sender::telegram(Kind::Sd2, master, setup.address, fc, 1);
        save_chain(chain_by(r, Drawn::Exchange), mem);
        save_reply(exchange_reply(sender, held, header), mem);
        return;
    }
    save_chain(chain_by(r, Drawn::Acknowledge), mem);
    save_reply(exchange_reply(Sender::single(), held, header), mem);
}

// A good Data_Exchange: its data is published, or held back in sync.
fn exchange(mem: &mut [u8], i: Incoming, r: Request)
    requires { (Holds mem.old (unpacked mem.old)) × (is_good_exchange (unpacked mem.old) r ≡ true) × (is_repeat_in (unpacked mem.old) r ≡ false) }
    ensures { mem.new ≡ completed_by mem.old i r }
{
    let image = Image { octets: &mem[..] };
    let setup = image.setup();
    let control = refilled(setup, image.control(), r);
    let deed = exchange_outputs(control.modes);
    let outputs = on_outputs(deed, image.outputs());
    let inputs = on_inputs(exchange_inputs(control.modes), image.inputs());
    let header = header_of(control);
    let held = outputs.set.held();
    save_incoming(i, mem);
    save_events(announced(deed, control.events), mem);
    save_ticks(control.watchdog.remaining, mem);
    save_outputs(outputs, mem);
    save_inputs(inputs, mem);
    reply_exchange(mem, r, setup, control, held, header);
}

// Slave_Diag: of the station's own parts it changes the control part alone.
fn diagnose(mem: &mut [u8], i: Incoming, r: Request)
    requires { (Holds mem.old (unpacked mem.old)) × (service_of (unpacked mem.old).setup r ≡ SlaveDiag) × (is_repeat_in (unpacked mem.old) r ≡ false) }
    ensures { mem.new ≡ completed_by mem.old i r }
{
    let image = Image { octets: &mem[..] };
    let setup = image.setup();
    let o = slave_diag(refilled(setup, image.control(), r), r);
    let outputs = image.outputs();
    let reply = draw(
        Drawn::Diagnosis,
        setup,
        o.control,
        outputs.set.held(),
        master_of(r),
    );
    save_incoming(i, mem);
    save_control(o.control, mem);
    save_chain(chain_by(r, Drawn::Diagnosis), mem);
    save_reply(reply, mem);
}

// A repeat draws the reply again: of the station's own parts it changes the owner's watchdog alone.
fn repeat(mem: &mut [u8], i: Incoming, r: Request)
    requires { (Holds mem.old (unpacked mem.old)) × (is_repeat_in (unpacked mem.old) r ≡ true) }
    ensures { mem.new ≡ completed_by mem.old i r }
{
    let image = Image { octets: &mem[..] };
    let setup = image.setup();
    let control = refilled(setup, image.control(), r);
    let outputs = image.outputs();
    let reply = draw(
        control.chain.drawn(),
        setup,
        control,
        outputs.set.held(),
        master_of(r),
    );
    save_incoming(i, mem);
    save_ticks(control.watchdog.remaining, mem);
    save_reply(reply, mem);
}

// A telegram that acts and is no repeat, by the service that it asks for.
#[tactic(auto, using(crate::proofs::CompletedOverMemory::others_once))]
fn apply(mem: &mut [u8], i: Incoming, r: Request, service: Service)
    requires { (Holds mem.old (unpacked mem.old)) × (service ≡ service_of (unpacked mem.old).setup r) × (acts (unpacked mem.old).setup r ≡ true) × (is_repeat_in (unpacked mem.old) r ≡ false) }
    ensures { mem.new ≡ completed_by mem.old i r }
{
    let image = Image { octets: &mem[..] };
    if is_good_exchange(image, r, service) {
        exchange(mem, i, r);
        return;
    }
    if matches!(service, Service::SlaveDiag) {
        diagnose(mem, i, r);
        return;
    }
    let o = served_in(Held { image }, r, service);
    answer(mem, o, i, r);
}

// A telegram that does not act draws nothing.
fn pass_by(mem: &mut [u8], i: Incoming, r: Request)
    requires { (Holds mem.old (unpacked mem.old)) × (acts (unpacked mem.old).setup r ≡ false) }
    ensures { mem.new ≡ completed_by mem.old i r }
{
    let image = Image { octets: &mem[..] };
    let control = image.control();
    let outputs = image.outputs();
    let reply = Reply {
        drawn: Drawn::Nothing,
        sender: Sender::empty(),
        place: outputs.set.held(),
        header: header_of(control),
    };
    save_incoming(i, mem);
    save_reply(reply, mem);
}

// A last octet applies Services; octets are ignored until a gap. i: the telegram, read to its end.
#[tactic(auto, using(crate::proofs::CompletedOverMemory::acting_service))]
pub fn complete(mem: &mut [u8], i: Incoming)
    requires { Holds mem.old (unpacked mem.old) }
    ensures { mem.new ≡ completed_by mem.old i (request_by i.reader) }
{
    let r = request_by(i.reader);
    let image = Image { octets: &mem[..] };
    if !acts(image.setup(), r) {
        pass_by(mem, i, r);
        return;
    }
    if repeats(image.chain(), r) {
        repeat(mem, i, r);
        return;
    }
    apply(mem, i, r, function_service(r));
}
