// The bus's octet: a telegram's data goes into the fill buffer that its header names, as it comes.
// Safe is asked in each function here that changes buffers: a type over &mut would need a clause in each that the reference stays the same.
#![tactic(auto, using(crate::proofs::StoredOverMemory::outputs_in, crate::proofs::StoredOverMemory::parameters_in, crate::proofs::StoredOverMemory::configuration_in, steps::proofs::KeepsSafe::prm_room, steps::proofs::KeepsSafe::safe_steps, steps::proofs::KeepsSafe::safe_completed), unfolding(steps::specs::Reading::outcome_of, steps::specs::Reading::answered, steps::specs::Reading::heard))]

ghost use Rattle.std.specs.Prelude.{◌≡◌, ◌+◌, ◌≤◌, true, false, length};
ghost use Rattle.telegram.specs.Reading.{takes_data, datum_of};
ghost use Rattle.buffers.specs.Roles.{fill_of};
ghost use Rattle.state.specs.Layout.{parameters_at};
ghost use Rattle.state.specs.declared.state.State.{State};
ghost use Rattle.steps.specs.Safe.{Safe};
ghost use Rattle.steps.specs.Stepped.{Steps};
ghost use Rattle.steps.specs.Outcome.{occupied};
ghost use Rattle.steps.specs.Reading.{stored_data, kept_octets, stored_as, read_on, read_by, request_by, prm_at, data_in, outcome_of, answered, completed, beginning, heard_as, is_ignored, heard};

use crate::replies::reply_for;
use outcomes::carry::{carry_out, is_open, settle};
use outcomes::line::begun;
use points::Point;
use rules::outcome::Outcome;
use rules::request::{Data, Occupied, Prm, Request};
use rules::requests::{master_of, service_of};
use rules::services::outcome_by;
use state::layout::{configuration_at, outputs_at, parameters_at};
use state::setup::Setup;
use state::start::no_reply;
use state::state::{Incoming, Outputs, Sets, State};
use telegram::reader::{Reader, Status};

// The part of the memory that is the fill buffer is lent on to the step that stores an octet.
fn store_data(s: State, mem: &mut [u8], k: u8, b: u8)
    requires { Safe s mem.old }
    ensures { mem.new ≡ stored_data s mem.old k b }
{
    let setup = s.setup;
    let reader = s.incoming.reader;
    if reader.da < 128 {
        let from = outputs_at(setup, s.outputs.set.fill());
        octets::store_at(mem, from, setup.output_len as usize, k as usize, b);
        return;
    }
    if reader.dsap == Point::SetPrm as u8 {
        let from = parameters_at(setup, s.parameters.set.fill());
        octets::store_at(mem, from, setup.parameter_len as usize, k as usize, b);
        return;
    }
    if reader.dsap == Point::ChkCfg as u8 {
        let from = configuration_at(setup, s.configuration.set.fill());
        octets::store_at(mem, from, setup.configuration_len as usize, k as usize, b);
    }
}

// The first two data octets are kept in the state, for Global_Control.
pub fn keep_octets(mut i: Incoming, reader: Reader, k: u8, b: u8) -> Incoming
    ensures { result ≡ kept_octets i reader k b }
{
    i.reader = reader;
    match k {
        0 => i.first = b,
        1 => i.second = b,
        _ => {}
    }
    i
}

// The reader goes on; the octets kept stay.
pub fn read_on(i: Incoming, reader: Reader) -> Incoming
    ensures { result ≡ read_on i reader }
{
    Incoming { reader, ..i }
}

// Nothing else of the state changes.
pub fn read_by(mut s: State, reader: Reader) -> State
    ensures { result ≡ read_by s reader }
{
    s.incoming = read_on(s.incoming, reader);
    s
}

// An inner octet, which is data or not.
fn store_inner(mut s: State, mem: &mut [u8], reader: Reader, b: u8) -> State
    requires { Safe s mem.old }
    ensures { Steps (stored_as (datum_of s.incoming.reader) s mem.old reader b) result mem.new }
{
    match s.incoming.reader.datum() {
        Some(k) => {
            store_data(s, mem, k, b);
            s.incoming = keep_octets(s.incoming, reader, k, b);
            s
        }
        None => read_by(s, reader),
    }
}

// The header of the telegram that the reader has read.
pub fn request_by(reader: Reader) -> Request
    ensures { result ≡ request_by reader }
{
    Request {
        kind: reader.kind,
        da: reader.da,
        sa: reader.sa,
        fc: reader.fc,
        dsap: reader.dsap,
        ssap: reader.ssap,
        count: reader.count,
    }
}

// The octets of Set_Prm from a place on. By the place and not by a slice of the buffer: no more than these is looked at.
pub fn prm_at(mem: &[u8], from: usize) -> Prm
    requires { from + 8 ≤ length mem.now }
    ensures { result ≡ prm_at mem.now from }
{
    Prm {
        status: mem[from],
        factor1: mem[from + 1],
        factor2: mem[from + 2],
        ident_high: mem[from + 4],
        ident_low: mem[from + 5],
        group: mem[from + 6],
        base: mem[from + 7],
    }
}

// All data octets that the rules look at, by the parts of any state: those of Set_Prm stand in the parameters' fill buffer.
pub(crate) fn data_in(mem: &[u8], setup: Setup, incoming: Incoming, parameters: Sets) -> Data
    requires { parameters_at setup (fill_of parameters.set.place) + 8 ≤ length mem.now }
    ensures { (s : State) → s.setup ≡ setup → s.incoming ≡ incoming → s.parameters ≡ parameters → result ≡ data_in s mem.now }
{
    Data {
        prm: prm_at(mem, parameters_at(setup, parameters.set.fill())),
        first: incoming.first,
        second: incoming.second,
    }
}

// Which buffers are occupied, by the parts of any state.
pub(crate) fn occupied(parameters: Sets, configuration: Sets, outputs: Outputs) -> Occupied
    ensures { (s : State) → s.parameters ≡ parameters → s.configuration ≡ configuration → s.outputs ≡ outputs → result ≡ occupied s }
{
    Occupied {
        parameters: is_open(parameters),
        configuration: is_open(configuration),
        outputs: outputs.set.withheld,
    }
}

// What comes of a telegram.
fn outcome_of(s: State, mem: &[u8], r: Request) -> Outcome
    requires { Safe s mem.now }
    ensures { result ≡ outcome_of s mem.now r }
{
    let occupied = occupied(s.parameters, s.configuration, s.outputs);
    let octets = data_in(mem, s.setup, s.incoming, s.parameters);
    outcome_by(
        service_of(s.setup, r),
        s.setup,
        s.control,
        occupied,
        r,
        octets,
    )
}

// An outcome carried out, and the reply drawn.
fn answer(s: State, mem: &mut [u8], o: Outcome, r: Request) -> State
    requires { Safe s mem.old }
    ensures { Steps (answered s mem.old o r) result mem.new }
{
    let mut t = carry_out(s, mem, o, r.count);
    t.reply = reply_for(o.drawn, t, master_of(r));
    t
}

// A last octet applies Services; octets are ignored until a gap.
fn complete(s: State, mem: &mut [u8], reader: Reader) -> State
    requires { Safe s mem.old }
    ensures { Steps (completed s mem.old reader) result mem.new }
{
    let t = read_by(s, reader);
    let r = request_by(reader);
    let o = outcome_of(t, &mem[..], r);
    answer(t, mem, o, r)
}

// The reader goes on, and an unfinished reply is dropped: so by a beginning.
pub(crate) fn drop_reply(s: State, reader: Reader) -> State
    ensures { result ≡ beginning s reader }
{
    let mut t = read_by(s, reader);
    t.reply = no_reply();
    t
}

// An octet after which the telegram is unfinished: inner, or a beginning.
fn hear_inside(s: State, mem: &mut [u8], reader: Reader, b: u8) -> State
    requires { Safe s mem.old }
    ensures { Steps (heard_as Status.Inside s mem.old reader b) result mem.new }
{
    if begun(s) {
        return store_inner(s, mem, reader, b);
    }
    settle(drop_reply(s, reader), mem)
}

// An octet by what the octets are with it; reader: after it.
fn hear_as(status: Status, s: State, mem: &mut [u8], reader: Reader, b: u8) -> State
    requires { Safe s mem.old }
    ensures { Steps (heard_as status s mem.old reader b) result mem.new }
{
    match status {
        Status::Fresh => s,
        Status::Inside => hear_inside(s, mem, reader, b),
        Status::Complete => {
            let t = complete(s, mem, reader);
            settle(t, mem)
        }
        Status::Broken => settle(read_by(s, Reader::off()), mem),
    }
}

// Octets are ignored until a gap after a complete telegram, and after one broken off.
pub fn is_ignored(status: Status) -> bool
    ensures { result ≡ is_ignored status }
{
    matches!(status, Status::Complete | Status::Broken)
}

// A data octet, which most octets are.
fn hear_datum(mut s: State, mem: &mut [u8], b: u8) -> State
    requires { (Safe s mem.old) × (takes_data s.incoming.reader ≡ true) }
    ensures { Steps (heard s mem.old b false) result mem.new }
{
    let old = s.incoming;
    let reader = old.reader;
    let k = reader.at;
    store_data(s, mem, k, b);
    s.incoming = keep_octets(old, reader.take_data(b), k, b);
    s
}

// Any octet, by what the octets are with it.
fn hear_any(s: State, mem: &mut [u8], b: u8, bad: bool) -> State
    requires { Safe s mem.old }
    ensures { Steps (heard s mem.old b bad) result mem.new }
{
    let reader = s.incoming.reader;
    if is_ignored(reader.status()) {
        return s;
    }
    let next = reader.receive(b, bad);
    hear_as(next.status(), s, mem, next, b)
}

// The bus's octet. The way of a data octet is so short that the compiler takes it in where the state is lent.
pub fn hear(s: State, mem: &mut [u8], b: u8, bad: bool) -> State
    requires { Safe s mem.old }
    ensures { Steps (heard s mem.old b bad) result mem.new }
{
    if bad {
        return hear_any(s, mem, b, true);
    }
    if s.incoming.reader.takes_data() {
        return hear_datum(s, mem, b);
    }
    hear_any(s, mem, b, false)
}
