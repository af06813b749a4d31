// The bus's octet over the memory that holds the state: an octet reads and writes only the parts of the state that it needs.
// Every step leaves the memory as the step on the unpacked state (`reading`) would leave it, packed again.
// Holds is asked of a plain &mut [u8]: it is broken between two saves, and that it holds again is no promise of a step but a theorem
// (steps/proofs/StaysUndamaged.antt).
ghost use Rattle.std.specs.Prelude.{◌≡◌, ℕ, ◌≤◌, true, false, ◌&&◌, length};
ghost use Rattle.telegram.specs.Reading.{status, takes_data};
ghost use Rattle.state.specs.Layout.{image_length};
ghost use Rattle.state.specs.Memory.{Holds, Changes};
ghost use Rattle.state.specs.Start.{no_reply};
ghost use Rattle.state.specs.Unpack.{unpacked};
ghost use Rattle.state.specs.With.{with_incoming, with_reply};
ghost use Rattle.steps.specs.Stepped.{packed_after};
ghost use Rattle.steps.specs.Reading.{stored_data, heard_as, heard};
ghost use Rattle.steps.specs.Line.{is_inside};
ghost use Rattle.station.specs.Hearing.{Turns};

use crate::completing::complete;
use crate::reading::{is_ignored, read_on};
use outcomes::line::is_inside;
use outcomes::settling::settle_over;
use points::Point;
use state::layout::{configuration_at, outputs_at, parameters_at};
use state::load::Image;
use state::saving::{keep_octet, save_incoming, save_read, save_reply};
use state::start::no_reply;
use state::state::Incoming;
use telegram::reader::{Reader, Status};

// A data octet into the fill buffer of the set that the header names; no other set is read. Written beside `store_data`, which has the places
// in the state: one function of both would take three closures that read them, and be no plainer.
#[tactic(auto, using(steps::proofs::Holding::holds_safe, crate::proofs::StoredOverMemory::outputs_in, crate::proofs::StoredOverMemory::parameters_in, crate::proofs::StoredOverMemory::configuration_in))]
fn store_received(mem: &mut [u8], k: u8, b: u8)
    requires { Holds mem.old (unpacked mem.old) }
    ensures { mem.new ≡ stored_data (unpacked mem.old) mem.old k b }
{
    let image = Image { octets: &mem[..] };
    let setup = image.setup();
    let incoming = image.incoming();
    if incoming.reader.da < 128 {
        let outputs = image.outputs();
        let from = outputs_at(setup, outputs.set.fill());
        octets::store_at(mem, from, setup.output_len as usize, k as usize, b);
        return;
    }
    if incoming.reader.dsap == Point::SetPrm as u8 {
        let parameters = image.parameters();
        let from = parameters_at(setup, parameters.set.fill());
        octets::store_at(mem, from, setup.parameter_len as usize, k as usize, b);
        return;
    }
    if incoming.reader.dsap == Point::ChkCfg as u8 {
        let configuration = image.configuration();
        let from = configuration_at(setup, configuration.set.fill());
        octets::store_at(mem, from, setup.configuration_len as usize, k as usize, b);
    }
}

// A data octet: it is stored, and the reader counts it.
fn hear_data(mem: &mut [u8], b: u8)
    requires { (Holds mem.old (unpacked mem.old)) × (takes_data (unpacked mem.old).incoming.reader ≡ true) }
    ensures { mem.new ≡ packed_after (heard (unpacked mem.old) mem.old b false) }
{
    let old = Image { octets: &mem[..] }.incoming();
    let reader = old.reader;
    let k = reader.at;
    store_received(mem, k, b);
    let next = reader.take_data(b);
    save_read(next.at, next.sum, mem);
    keep_octet(k, b, mem);
}

// Whether an octet is inner, by the reader before it and after it.
fn is_inner(reader: Reader, next: Reader) -> bool
    ensures { result ≡ (is_inside (status reader) && is_inside (status next)) }
{
    is_inside(reader.status()) & is_inside(next.status())
}

// The telegram that is coming, with an unfinished reply dropped.
pub fn drop_reply(mem: &mut [u8], i: Incoming)
    requires { image_length ≤ length mem.old }
    ensures { Changes mem.old mem.new (λ s. with_reply (with_incoming s i) no_reply) }
{
    save_incoming(i, mem);
    save_reply(no_reply(), mem);
}

// Octets that begin, end or break off a telegram; next: the reader after the octet. A beginning drops an unfinished reply.
fn turn(status: Status, mem: &mut [u8], old: Incoming, next: Reader)
    requires { Turns mem.old old next status }
    ensures { (b : ℕ) → mem.new ≡ packed_after (heard_as status (unpacked mem.old) mem.old next b) }
{
    match status {
        Status::Fresh => {}
        Status::Inside => {
            drop_reply(mem, read_on(old, next));
            settle_over(mem);
        }
        Status::Complete => {
            complete(mem, read_on(old, next));
            settle_over(mem);
        }
        Status::Broken => {
            save_incoming(read_on(old, Reader::off()), mem);
            settle_over(mem);
        }
    }
}

// Any octet but good data: one that is ignored changes nothing, an inner one only the reader.
fn hear_other(mem: &mut [u8], b: u8, bad: bool)
    requires { (Holds mem.old (unpacked mem.old)) × (takes_data (unpacked mem.old).incoming.reader ≡ true → bad ≡ true) }
    ensures { mem.new ≡ packed_after (heard (unpacked mem.old) mem.old b bad) }
{
    let old = Image { octets: &mem[..] }.incoming();
    let reader = old.reader;
    if is_ignored(reader.status()) {
        return;
    }
    let next = reader.receive(b, bad);
    if is_inner(reader, next) {
        save_incoming(read_on(old, next), mem);
        return;
    }
    turn(next.status(), mem, old, next);
}

// The bus's octet over the memory. Most octets are data.
pub fn hear_octet(mem: &mut [u8], b: u8, bad: bool)
    requires { Holds mem.old (unpacked mem.old) }
    ensures { mem.new ≡ packed_after (heard (unpacked mem.old) mem.old b bad) }
{
    let data = Image { octets: &mem[..] }.takes_data();
    if bad | !data {
        hear_other(mem, b, bad);
        return;
    }
    hear_data(mem, b);
}
