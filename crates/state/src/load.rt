// The octets of a memory read straight as a state, as a whole or a part of it alone.
#![tactic(auto, unfolding(crate::specs::Unpack::unpacked))]

ghost use Rattle.std.specs.Prelude.{◌≡◌, ◌+◌, ◌≤◌, ◌<◌, length};
ghost use Rattle.telegram.specs.Reading.{takes_data};
ghost use Rattle.state.specs.Layout.{image_length};
ghost use Rattle.state.specs.Unpack.{word_at, double_at, setup_in, flags_in, modes_in, sets_in, reader_in, sender_in, header_in, unpacked};

use crate::chain::Chain;
use crate::control::{Control, Diagnosis, Flags, Modes, Phase, Watchdog};
use crate::number::Numbered;
use crate::setup::Setup;
use crate::state::{Drawn, Header, Incoming, Outputs, Reply, Sets, State};
use buffers::events::Events;
use buffers::quad::Quad;
use buffers::triple::Triple;
use ranges::word;
use telegram::reader::Reader;
use telegram::sender::{Sender, Stage};
use telegram::{Kind, reader};

// The word at i, its low octet first.
fn word_at(mem: &[u8], i: usize) -> u16
    requires { i + 1 < length mem.now }
    ensures { result ≡ word_at mem.now i }
{
    u16::from_le_bytes([mem[i], mem[i + 1]])
}

// The double word at i, its low octet first, by one load.
fn double_at(mem: &[u8], i: usize) -> u32
    requires { i + 4 ≤ length mem.now }
    ensures { result ≡ double_at mem.now i }
{
    word::half(mem, i)
}

// The flags of an octet. Bits by division here and below: the function for one bit is the rules', which stand above.
fn flags_in(x: u8) -> Flags
    ensures { result ≡ flags_in x }
{
    Flags {
        prm_fault: x % 2 == 1,
        cfg_fault: x / 2 % 2 == 1,
        ext_diag: x / 8 % 2 == 1,
        stat_diag: x / 16 % 2 == 1,
        overflow: x / 32 % 2 == 1,
        diag_flag: x / 64 % 2 == 1,
        parameters_good: x / 128 % 2 == 1,
    }
}

// The modes of an octet.
fn modes_in(x: u8) -> Modes
    ensures { result ≡ modes_in x }
{
    Modes {
        sync: x % 2 == 1,
        freeze: x / 2 % 2 == 1,
        sync_allowed: x / 4 % 2 == 1,
        freeze_allowed: x / 8 % 2 == 1,
    }
}

// Received sets, with their roles at k and their counts from i on.
fn sets_in(mem: &[u8], k: usize, i: usize) -> Sets
    requires { (k < length mem.now) × (i + 1 < length mem.now) }
    ensures { result ≡ sets_in mem.now k i }
{
    let waiting = mem[i + 1];
    Sets {
        set: Triple::numbered(mem[k], waiting != 0),
        shown: mem[i],
        waiting,
    }
}

// A memory that is long enough for the image of a state, to read.
#[derive(Clone, Copy)]
pub struct Image<'a> {
    pub octets: &'a [u8],
    pub ghost whole: { image_length ≤ length octets.now },
}

impl<'a> Image<'a> {
    // What Start was given, the ident number handed in.
    fn setup_in(self, ident: u16) -> Setup
        ensures { result ≡ setup_in self.entry.octets.now ident }
    {
        Setup {
            address: self.octets[20],
            ident,
            output_len: self.octets[48],
            input_len: self.octets[49],
            parameter_len: self.octets[50],
            configuration_len: self.octets[51],
            diagnosis_len: self.octets[52],
            get_cfg_len: self.octets[53],
        }
    }

    // What Start was given.
    pub fn setup(self) -> Setup
        ensures { result ≡ (unpacked self.entry.octets.now).setup }
    {
        self.setup_in(word_at(self.octets, 42))
    }

    // Diagnosis and the delayed one.
    pub fn diagnosis(self) -> Diagnosis
        ensures { result ≡ (unpacked self.entry.octets.now).control.diagnosis }
    {
        Diagnosis {
            count: self.octets[56],
            delayed_count: self.octets[57],
            delayed_flags: self.octets[26],
        }
    }

    // The event word.
    pub fn events(self) -> Events
        ensures { result ≡ (unpacked self.entry.octets.now).control.events }
    {
        Events {
            word: word_at(self.octets, 4),
        }
    }

    // Whether a clear is noted.
    pub fn noted(self) -> bool
        ensures { result ≡ (unpacked self.entry.octets.now).control.noted }
    {
        self.octets[3] / 4 % 2 == 1
    }

    // The last request, with which the next is compared.
    pub fn chain(self) -> Chain
        ensures { result ≡ (unpacked self.entry.octets.now).control.chain }
    {
        Chain {
            code: self.octets[54],
            master: self.octets[55],
        }
    }

    // The control part.
    pub fn control(self) -> Control
        ensures { result ≡ (unpacked self.entry.octets.now).control }
    {
        let remaining = double_at(self.octets, 44);
        let reload = double_at(self.octets, 64);
        Control {
            phase: Phase::numbered(self.octets[21]),
            owner: self.octets[0],
            group: self.octets[1],
            stored: self.octets[2],
            watchdog: Watchdog { reload, remaining },
            flags: flags_in(self.octets[3]),
            events: self.events(),
            noted: self.noted(),
            diagnosis: self.diagnosis(),
            modes: modes_in(self.octets[27]),
            chain: self.chain(),
        }
    }

    // The set of output buffers.
    pub fn outputs(self) -> Outputs
        ensures { result ≡ (unpacked self.entry.octets.now).outputs }
    {
        let marks = self.octets[29];
        let set = Quad::numbered(self.octets[22], marks % 2 == 1, marks / 4 % 2 == 1);
        Outputs {
            set,
            zeros: marks / 2 % 2 == 1,
        }
    }

    // The set of input buffers.
    pub fn inputs(self) -> Triple
        ensures { result ≡ (unpacked self.entry.octets.now).inputs }
    {
        let code = self.octets[23];
        Triple::numbered(code / 2, code % 2 == 1)
    }

    // The parameters received.
    pub fn parameters(self) -> Sets
        ensures { result ≡ (unpacked self.entry.octets.now).parameters }
    {
        sets_in(self.octets, 24, 58)
    }

    // The configuration received.
    pub fn configuration(self) -> Sets
        ensures { result ≡ (unpacked self.entry.octets.now).configuration }
    {
        sets_in(self.octets, 25, 60)
    }

    // Whether the controller's diagnosis buffer is the second.
    pub fn swapped(self) -> bool
        ensures { result ≡ (unpacked self.entry.octets.now).swapped }
    {
        self.octets[28] == 1
    }

    // The reader at a phase.
    fn reader_in(self, phase: reader::Phase, kind: Kind) -> Reader
        ensures { result ≡ reader_in self.entry.octets.now phase kind }
    {
        Reader {
            phase,
            kind,
            count: self.octets[32],
            at: self.octets[33],
            da: self.octets[34],
            sa: self.octets[35],
            fc: self.octets[36],
            dsap: self.octets[37],
            ssap: self.octets[38],
            sum: self.octets[39],
        }
    }

    // The telegram that is coming.
    pub fn incoming(self) -> Incoming
        ensures { result ≡ (unpacked self.entry.octets.now).incoming }
    {
        Incoming {
            reader: self.reader_in(
                reader::Phase::numbered(self.octets[31]),
                Kind::numbered(self.octets[30]),
            ),
            first: self.octets[40],
            second: self.octets[41],
        }
    }

    // Whether its next octet is data. By the octets as they stand, since most octets are data and nothing else of it is then looked at.
    pub fn takes_data(self) -> bool
        ensures { result ≡ takes_data (unpacked self.entry.octets.now).incoming.reader }
    {
        (self.octets[31] == reader::Phase::Body.number()) & (self.octets[33] < self.octets[32])
    }

    // The sender at a stage.
    fn sender_in(self, stage: Stage, kind: Kind) -> Sender
        ensures { result ≡ sender_in self.entry.octets.now stage kind }
    {
        Sender {
            stage,
            kind,
            count: self.octets[14],
            at: self.octets[15],
            da: self.octets[10],
            sa: self.octets[11],
            fc: self.octets[12],
            sum: self.octets[13],
        }
    }

    // The first diagnosis octets of the reply.
    fn header_in(self) -> Header
        ensures { result ≡ header_in self.entry.octets.now }
    {
        Header {
            status1: self.octets[6],
            status2: self.octets[7],
            status3: self.octets[8],
            master: self.octets[9],
        }
    }

    // The reply in progress.
    pub fn reply(self) -> Reply
        ensures { result ≡ (unpacked self.entry.octets.now).reply }
    {
        Reply {
            drawn: Drawn::numbered(self.octets[18]),
            sender: self.sender_in(
                Stage::numbered(self.octets[17]),
                Kind::numbered(self.octets[16]),
            ),
            place: self.octets[19],
            header: self.header_in(),
        }
    }

    // The state that the first octets hold.
    pub fn unpack(self) -> State
        ensures { result ≡ unpacked self.entry.octets.now }
    {
        State {
            setup: self.setup(),
            control: self.control(),
            outputs: self.outputs(),
            inputs: self.inputs(),
            parameters: self.parameters(),
            configuration: self.configuration(),
            swapped: self.swapped(),
            incoming: self.incoming(),
            reply: self.reply(),
        }
    }
}
