// The image of a state: the octets that hold it, laid out one by one.
ghost use Rattle.std.specs.Prelude.{◌≡◌, [], ◌∷◌, ◌++◌, ◌≤◌, ◌/◌, ◌%◌, length, drop};
ghost use Rattle.state.specs.Layout.{image_length};
ghost use Rattle.state.specs.Image.{flags_of, modes_of, marks_of, inputs_code, double_octets, image};

use crate::control::{Flags, Modes};
use crate::number::Numbered;
use crate::state::{Outputs, State};
use buffers::triple::Triple;

// The octets of a word, low first.
pub(crate) fn word_octets(x: u16) -> [u8; 2]
    ensures { result ≡ x % 256 ∷ x / 256 ∷ [] }
{
    x.to_le_bytes()
}

// The octets of a double word, low first.
pub fn double_octets(x: u32) -> [u8; 4]
    ensures { result ≡ double_octets x }
{
    x.to_le_bytes()
}

// The flags and the note of a clear in one octet.
pub fn flags(f: Flags, noted: bool) -> u8
    ensures { result ≡ flags_of f noted }
{
    u8::from(f.prm_fault)
        + 2 * u8::from(f.cfg_fault)
        + 4 * u8::from(noted)
        + 8 * u8::from(f.ext_diag)
        + 16 * u8::from(f.stat_diag)
        + 32 * u8::from(f.overflow)
        + 64 * u8::from(f.diag_flag)
        + 128 * u8::from(f.parameters_good)
}

// The modes in one octet.
pub fn modes(m: Modes) -> u8
    ensures { result ≡ modes_of m }
{
    u8::from(m.sync)
        + 2 * u8::from(m.freeze)
        + 4 * u8::from(m.sync_allowed)
        + 8 * u8::from(m.freeze_allowed)
}

// The marks of the output set in one octet: whether it is new, whether it is zeros by the station, whether something is held back.
pub fn output_marks(o: Outputs) -> u8
    ensures { result ≡ marks_of o }
{
    u8::from(o.set.fresh) + 2 * u8::from(o.zeros) + 4 * u8::from(o.set.withheld)
}

// The input set in one octet: its roles, and whether next is new.
pub fn inputs_code(t: Triple) -> u8
    ensures { result ≡ inputs_code t }
{
    2 * t.number() + u8::from(t.fresh)
}

// The octets of the image, in their order.
pub fn octets(s: State) -> [u8; 68]
    ensures { result ≡ image s }
{
    let control = s.control;
    let events = word_octets(control.events.word);
    let ident = word_octets(s.setup.ident);
    let remaining = double_octets(control.watchdog.remaining);
    let reload = double_octets(control.watchdog.reload);
    let reader = s.incoming.reader;
    let reply = s.reply;
    let sender = reply.sender;
    [
        control.owner,
        control.group,
        control.stored,
        flags(control.flags, control.noted),
        events[0],
        events[1],
        reply.header.status1,
        reply.header.status2,
        reply.header.status3,
        reply.header.master,
        sender.da,
        sender.sa,
        sender.fc,
        sender.sum,
        sender.count,
        sender.at,
        sender.kind.number(),
        sender.stage.number(),
        reply.drawn.number(),
        reply.place,
        s.setup.address,
        control.phase.number(),
        s.outputs.set.number(),
        inputs_code(s.inputs),
        s.parameters.set.number(),
        s.configuration.set.number(),
        control.diagnosis.delayed_flags,
        modes(control.modes),
        u8::from(s.swapped),
        output_marks(s.outputs),
        reader.kind.number(),
        reader.phase.number(),
        reader.count,
        reader.at,
        reader.da,
        reader.sa,
        reader.fc,
        reader.dsap,
        reader.ssap,
        reader.sum,
        s.incoming.first,
        s.incoming.second,
        ident[0],
        ident[1],
        remaining[0],
        remaining[1],
        remaining[2],
        remaining[3],
        s.setup.output_len,
        s.setup.input_len,
        s.setup.parameter_len,
        s.setup.configuration_len,
        s.setup.diagnosis_len,
        s.setup.get_cfg_len,
        control.chain.code,
        control.chain.master,
        control.diagnosis.count,
        control.diagnosis.delayed_count,
        s.parameters.shown,
        s.parameters.waiting,
        s.configuration.shown,
        s.configuration.waiting,
        0,
        0,
        reload[0],
        reload[1],
        reload[2],
        reload[3],
    ]
}

// The state's octets at the front of the memory; what lies behind them stays. The length is asked for as in saving.rt.
pub fn save(s: State, mem: &mut [u8])
    requires { image_length ≤ length mem.old }
    ensures { mem.new ≡ image s ++ drop image_length mem.old }
{
    octets::copy(&octets(s), mem);
}
