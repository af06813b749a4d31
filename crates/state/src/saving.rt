// A part of the state packed alone: its octets are written, and no other. Whatever state stands in front of the memory, afterwards it
// is that state with the part changed.
// The functions here ask for the image's length one by one: a type over &mut would need a clause in each that the reference stays the same.
ghost use Rattle.std.specs.Prelude.{◌≤◌, length};
ghost use Rattle.state.specs.Layout.{image_length};
ghost use Rattle.state.specs.Memory.{Changes};
ghost use Rattle.state.specs.With.{with_control_but_chain, with_standing, with_event_word, with_ticks, with_chain, with_outputs, with_inputs, with_parameters, with_configuration, with_swapped, with_incoming, with_read, with_kept, with_sender, with_outline, with_reply};

use crate::chain::Chain;
use crate::control::Control;
use crate::image::{double_octets, flags, inputs_code, modes, output_marks, word_octets};
use crate::number::Numbered;
use crate::state::{Incoming, Outputs, Reply, Sets};
use buffers::events::Events;
use buffers::triple::Triple;
use telegram::sender::Sender;

// The telegram that is coming: octets 30 to 41.
pub fn save_incoming(i: Incoming, mem: &mut [u8])
    requires { image_length ≤ length mem.old }
    ensures { Changes mem.old mem.new (λ s. with_incoming s i) }
{
    let reader = i.reader;
    mem[30] = reader.kind.number();
    mem[31] = reader.phase.number();
    mem[32] = reader.count;
    mem[33] = reader.at;
    mem[34] = reader.da;
    mem[35] = reader.sa;
    mem[36] = reader.fc;
    mem[37] = reader.dsap;
    mem[38] = reader.ssap;
    mem[39] = reader.sum;
    mem[40] = i.first;
    mem[41] = i.second;
}

// How many data octets of it were read, and its checksum.
pub fn save_read(at: u8, sum: u8, mem: &mut [u8])
    requires { image_length ≤ length mem.old }
    ensures { Changes mem.old mem.new (λ s. with_read s at sum) }
{
    mem[33] = at;
    mem[39] = sum;
}

// Its data octet k, if that is one of the first two.
pub fn keep_octet(k: u8, b: u8, mem: &mut [u8])
    requires { image_length ≤ length mem.old }
    ensures { Changes mem.old mem.new (λ s. with_kept s k b) }
{
    if k < 2 {
        mem[40 + k as usize] = b;
    }
}

// The sender of the reply: octets 10 to 17.
pub fn save_sender(sender: Sender, mem: &mut [u8])
    requires { image_length ≤ length mem.old }
    ensures { Changes mem.old mem.new (λ s. with_sender s sender) }
{
    mem[16] = sender.kind.number();
    mem[17] = sender.stage.number();
    mem[10] = sender.da;
    mem[11] = sender.sa;
    mem[12] = sender.fc;
    mem[13] = sender.sum;
    mem[14] = sender.count;
    mem[15] = sender.at;
}

// The reply but for its sender: octets 6 to 9, 18 and 19.
fn save_outline(reply: Reply, mem: &mut [u8])
    requires { image_length ≤ length mem.old }
    ensures { Changes mem.old mem.new (λ s. with_outline s reply) }
{
    mem[18] = reply.drawn.number();
    mem[19] = reply.place;
    mem[6] = reply.header.status1;
    mem[7] = reply.header.status2;
    mem[8] = reply.header.status3;
    mem[9] = reply.header.master;
}

// The reply: octets 6 to 19.
pub fn save_reply(reply: Reply, mem: &mut [u8])
    requires { image_length ≤ length mem.old }
    ensures { Changes mem.old mem.new (λ s. with_reply s reply) }
{
    save_outline(reply, mem);
    save_sender(reply.sender, mem);
}

// The events: octets 4 and 5.
pub fn save_events(events: Events, mem: &mut [u8])
    requires { image_length ≤ length mem.old }
    ensures { Changes mem.old mem.new (λ s. with_event_word s events) }
{
    let octets = word_octets(events.word);
    mem[4] = octets[0];
    mem[5] = octets[1];
}

// The ticks that remain of the watchdog: octets 44 to 47.
pub fn save_ticks(ticks: u32, mem: &mut [u8])
    requires { image_length ≤ length mem.old }
    ensures { Changes mem.old mem.new (λ s. with_ticks s ticks) }
{
    let octets = double_octets(ticks);
    mem[44] = octets[0];
    mem[45] = octets[1];
    mem[46] = octets[2];
    mem[47] = octets[3];
}

// The last request, with which the next is compared: octets 54 and 55.
pub fn save_chain(chain: Chain, mem: &mut [u8])
    requires { image_length ≤ length mem.old }
    ensures { Changes mem.old mem.new (λ s. with_chain s chain) }
{
    mem[54] = chain.code;
    mem[55] = chain.master;
}

// The control part but for the events, the ticks that remain and the chain: octets 0 to 3, 21, 26, 27, 56, 57 and 64 to 67.
fn save_standing(control: Control, mem: &mut [u8])
    requires { image_length ≤ length mem.old }
    ensures { Changes mem.old mem.new (λ s. with_standing s control) }
{
    let packed = flags(control.flags, control.noted);
    let packed_modes = modes(control.modes);
    let reload = double_octets(control.watchdog.reload);
    mem[21] = control.phase.number();
    mem[64] = reload[0];
    mem[65] = reload[1];
    mem[66] = reload[2];
    mem[67] = reload[3];
    mem[0] = control.owner;
    mem[1] = control.group;
    mem[2] = control.stored;
    mem[3] = packed;
    mem[26] = control.diagnosis.delayed_flags;
    mem[27] = packed_modes;
    mem[56] = control.diagnosis.count;
    mem[57] = control.diagnosis.delayed_count;
}

// The control part but for the chain, which requests alone change: octets 0 to 5, 21, 26, 27, 44 to 47, 56, 57 and 64 to 67.
pub fn save_control(control: Control, mem: &mut [u8])
    requires { image_length ≤ length mem.old }
    ensures { Changes mem.old mem.new (λ s. with_control_but_chain s control) }
{
    save_standing(control, mem);
    save_events(control.events, mem);
    save_ticks(control.watchdog.remaining, mem);
}

// The output set: octets 22 and 29.
pub fn save_outputs(outputs: Outputs, mem: &mut [u8])
    requires { image_length ≤ length mem.old }
    ensures { Changes mem.old mem.new (λ s. with_outputs s outputs) }
{
    let marks = output_marks(outputs);
    mem[22] = outputs.set.number();
    mem[29] = marks;
}

// The input set: octet 23.
pub fn save_inputs(inputs: Triple, mem: &mut [u8])
    requires { image_length ≤ length mem.old }
    ensures { Changes mem.old mem.new (λ s. with_inputs s inputs) }
{
    mem[23] = inputs_code(inputs);
}

// The parameters received: octets 24, 58 and 59.
pub fn save_parameters(parameters: Sets, mem: &mut [u8])
    requires { image_length ≤ length mem.old }
    ensures { Changes mem.old mem.new (λ s. with_parameters s parameters) }
{
    mem[24] = parameters.set.number();
    mem[58] = parameters.shown;
    mem[59] = parameters.waiting;
}

// The configuration received: octets 25, 60 and 61. Apart from the parameters: what is promised names another part of the state.
pub fn save_configuration(configuration: Sets, mem: &mut [u8])
    requires { image_length ≤ length mem.old }
    ensures { Changes mem.old mem.new (λ s. with_configuration s configuration) }
{
    mem[25] = configuration.set.number();
    mem[60] = configuration.shown;
    mem[61] = configuration.waiting;
}

// Which diagnosis buffer is the controller's: octet 28.
pub fn save_swapped(swapped: bool, mem: &mut [u8])
    requires { image_length ≤ length mem.old }
    ensures { Changes mem.old mem.new (λ s. with_swapped s swapped) }
{
    mem[28] = u8::from(swapped);
}
