// Gap, send and tick.
// Holds is asked of a plain &mut [u8]: it is broken between two saves, and that it holds again is no promise of a step but a theorem
// (steps/proofs/StaysUndamaged.antt). Safe likewise, as in reading.rt.
#![tactic(auto, using(crate::proofs::Stepping::still, crate::proofs::Ticking::tick_drops, crate::proofs::Ticking::tick_carries_over, crate::proofs::Ticking::tick_rests, crate::proofs::Ticking::tick_counts), unfolding(steps::specs::Bus::paused))]

ghost use Rattle.std.specs.Prelude.{◌≡◌, unwrap_or};
ghost use Rattle.state.specs.Memory.{Holds};
ghost use Rattle.state.specs.Unpack.{unpacked};
ghost use Rattle.state.specs.Start.{no_reply};
ghost use Rattle.state.specs.With.{with_reply};
ghost use Rattle.steps.specs.Safe.{Safe};
ghost use Rattle.steps.specs.Stepped.{Steps, packed_after};
ghost use Rattle.steps.specs.Line.{begun};
ghost use Rattle.steps.specs.Outcome.{settle};
ghost use Rattle.steps.specs.Reading.{read_by};
ghost use Rattle.steps.specs.Bus.{paused, send_told, send_left, silenced_reader, elapsed};

use crate::hearing::drop_reply;
use crate::reading::{self, read_by, read_on};
use crate::replies::asked_for;
use outcomes::carry::{carry_out, settle};
use outcomes::line::{begun, busy, busy_in, is_inside};
use outcomes::over::carry_over;
use outcomes::settling::{settle_over, settle_waiting};
use rules::line::{counts, ticked};
use state::load::Image;
use state::memory::Held;
use state::saving::{save_incoming, save_sender, save_ticks};
use state::state::State;
use telegram::reader::Reader;

// A gap: the next octet may begin a telegram.
pub fn pause(s: State, mem: &mut [u8]) -> State
    requires { Safe s mem.old }
    ensures { Steps (paused s mem.old) result mem.new }
{
    settle(read_by(s, Reader::start()), mem)
}

// The same over the memory, where only the reader is packed before what waited is settled.
pub fn gap(mem: &mut [u8])
    requires { Holds mem.old (unpacked mem.old) }
    ensures { mem.new ≡ packed_after (paused (unpacked mem.old) mem.old) }
{
    let old = Image { octets: &mem[..] }.incoming();
    save_incoming(read_on(old, Reader::start()), mem);
    settle_over(mem);
}

// Send takes the next octet of the reply, none when no octet is left.
pub fn send(mem: &mut [u8]) -> Option<u8>
    requires { Holds mem.old (unpacked mem.old) }
    ensures { (unwrap_or result 256 ≡ send_told (unpacked mem.old) mem.old) × (mem.new ≡ packed_after (send_left (unpacked mem.old) mem.old)) }
{
    let image = Image { octets: &mem[..] };
    let sender = image.reply().sender;
    if !sender.left() {
        return None;
    }
    let datum = asked_for(Held { image });
    let sent = sender.send(datum);
    save_sender(sent.sender, mem);
    settle_over(mem);
    Some(sent.octet)
}

// The reading that a Tick leaves: a telegram that is coming is dropped.
fn silenced_reader(inside: bool, reader: Reader) -> Reader
    ensures { result ≡ silenced_reader inside reader }
{
    if inside { Reader::off() } else { reader }
}

// The next Tick after a clear was noted drops telegram or reply, so that the clear is carried out.
fn silence(s: State, mem: &mut [u8]) -> State
    requires { Safe s mem.old }
    ensures { Steps (settle (with_reply (read_by s (silenced_reader (begun s) s.incoming.reader)) no_reply) mem.old) result mem.new }
{
    let reader = silenced_reader(begun(s), s.incoming.reader);
    settle(reading::drop_reply(s, reader), mem)
}

// The same over the memory, where only telegram and reply are packed. The clear waits, so that the line is settled without a look whether
// something does.
fn silence_over(mem: &mut [u8])
    requires { Holds mem.old (unpacked mem.old) }
    ensures { mem.new ≡ packed_after (settle (with_reply (read_by (unpacked mem.old) (silenced_reader (begun (unpacked mem.old)) (unpacked mem.old).incoming.reader)) no_reply) mem.old) }
{
    let old = Image { octets: &mem[..] }.incoming();
    let inside = is_inside(old.reader.status());
    drop_reply(mem, read_on(old, silenced_reader(inside, old.reader)));
    settle_waiting(mem);
}

// A Tick, whatever comes of it.
#[tactic(auto, unfolding(steps::specs::Bus::elapsed))]
fn elapse_whole(s: State, mem: &mut [u8]) -> State
    requires { Safe s mem.old }
    ensures { Steps (elapsed s mem.old) result mem.new }
{
    if s.control.noted {
        return silence(s, mem);
    }
    carry_out(s, mem, ticked(busy(s), s.control), 0)
}

// A Tick: 1 ms. Nearly always the watchdog counts down or is off. Whatever else comes of it is called at two places, as in `tick`.
pub fn elapse(mut s: State, mem: &mut [u8]) -> State
    requires { Safe s mem.old }
    ensures { Steps (elapsed s mem.old) result mem.new }
{
    if s.control.noted {
        return elapse_whole(s, mem);
    }
    if !counts(s.control) {
        return s;
    }
    let remaining = s.control.watchdog.remaining;
    if 1 < remaining {
        s.control.watchdog.remaining = remaining - 1;
        return s;
    }
    elapse_whole(s, mem)
}

// A Tick over the memory, whatever comes of it.
fn tick_whole(mem: &mut [u8])
    requires { Holds mem.old (unpacked mem.old) }
    ensures { mem.new ≡ packed_after (elapsed (unpacked mem.old) mem.old) }
{
    let image = Image { octets: &mem[..] };
    let control = image.control();
    if control.noted {
        silence_over(mem);
        return;
    }
    let busy = busy_in(image);
    carry_over(mem, ticked(busy, control), 0);
}

// A Tick over the memory: nearly always only the ticks that remain are packed. Whatever else comes of it is called at two places, since
// what is called at one the compiler takes in, and every Tick would save the registers that it needs.
pub fn tick(mem: &mut [u8])
    requires { Holds mem.old (unpacked mem.old) }
    ensures { mem.new ≡ packed_after (elapsed (unpacked mem.old) mem.old) }
{
    let control = Image { octets: &mem[..] }.control();
    if control.noted {
        tick_whole(mem);
        return;
    }
    if !counts(control) {
        return;
    }
    let remaining = control.watchdog.remaining;
    if 1 < remaining {
        save_ticks(remaining - 1, mem);
        return;
    }
    tick_whole(mem);
}
