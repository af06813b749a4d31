// States and channels with every field at an extreme value go through save and load; a memory with one octet changed, or with other lengths
// and less room, is damaged or not.
#![tactic(auto)]

ghost use Rattle.std.specs.Prelude.{◌≤◌, length};
ghost use Rattle.channels.specs.Image.{rows_end};

use buffers::events::Events;
use buffers::quad::Quad;
use buffers::triple::Triple;
use channels::channel;
use channels::channel::{Channel, Rows};
use state::chain::Chain;
use state::control::{Control, Diagnosis, Flags, Modes, Phase, Watchdog};
use state::image::save;
use state::load::Image;
use state::memory::holds_state;
use state::setup::Setup;
use state::state::{Drawn, Header, Incoming, Outputs, Reply, Sets, State};
use std::{fmt, io};
use telegram::reader::Reader;
use telegram::sender::{Sender, Stage};
use telegram::{Kind, reader};

fn all_flags() -> Flags {
    Flags {
        prm_fault: true,
        cfg_fault: true,
        ext_diag: true,
        stat_diag: true,
        overflow: true,
        diag_flag: true,
        parameters_good: true,
    }
}

fn most_control() -> Control {
    Control {
        phase: Phase::DataExch,
        owner: 126,
        group: 255,
        stored: 255,
        watchdog: Watchdog {
            reload: 4294967295,
            remaining: 4294967295,
        },
        flags: all_flags(),
        events: Events { word: 65535 },
        noted: true,
        diagnosis: Diagnosis {
            count: 244,
            delayed_count: 244,
            delayed_flags: 7,
        },
        modes: Modes {
            sync: true,
            freeze: true,
            sync_allowed: true,
            freeze_allowed: true,
        },
        chain: Chain::new(Chain::NO_MASTER, true, Drawn::Diagnosis),
    }
}

fn most_incoming() -> Incoming {
    Incoming {
        reader: Reader {
            phase: reader::Phase::Off,
            kind: Kind::Sd4,
            count: 246,
            at: 246,
            da: 255,
            sa: 255,
            fc: 255,
            dsap: 255,
            ssap: 255,
            sum: 255,
        },
        first: 255,
        second: 255,
    }
}

fn most_reply() -> Reply {
    Reply {
        drawn: Drawn::Diagnosis,
        sender: Sender {
            stage: Stage::Empty,
            kind: Kind::Sd4,
            count: 246,
            at: 246,
            da: 255,
            sa: 255,
            fc: 255,
            sum: 255,
        },
        place: 3,
        header: Header {
            status1: 255,
            status2: 255,
            status3: 255,
            master: 255,
        },
    }
}

// The longest lengths, the last of each enum, every mark and flag set, every octet as high as it goes.
fn most() -> State {
    State {
        setup: Setup {
            address: 126,
            ident: 65535,
            output_len: 244,
            input_len: 244,
            parameter_len: 244,
            configuration_len: 244,
            diagnosis_len: 244,
            get_cfg_len: 244,
        },
        control: most_control(),
        outputs: Outputs {
            set: Quad::numbered(23, true, true),
            zeros: true,
        },
        inputs: Triple::numbered(5, true),
        parameters: Sets {
            set: Triple::numbered(5, true),
            shown: 244,
            waiting: 244,
        },
        configuration: Sets {
            set: Triple::numbered(5, true),
            shown: 244,
            waiting: 244,
        },
        swapped: true,
        incoming: most_incoming(),
        reply: most_reply(),
    }
}

// The shortest lengths, as Start leaves it.
fn least() -> State {
    state::start::initial(Setup {
        address: 0,
        ident: 0,
        output_len: 0,
        input_len: 1,
        parameter_len: 7,
        configuration_len: 1,
        diagnosis_len: 6,
        get_cfg_len: 1,
    })
}

// A channel that is not set up, and one with the longest buffers, both full.
const NO_CHANNEL: [u8; 4] = [0; 4];

const MOST_CHANNEL: [u8; 4] = [240; 4];

// The lengths of both buffers of a channel, and how many octets of each are in use.
fn channel_of(octets: [u8; 4]) -> Channel {
    let [
        indication_len,
        response_len,
        indication_count,
        response_count,
    ] = octets;
    Channel {
        indication_len,
        response_len,
        indication_count,
        response_count,
    }
}

// A memory of zeros with a state saved in it, and with the first and the last channel so.
fn saved<const N: usize>(s: State, first: Channel, last: Channel) -> [u8; N]
    requires { rows_end ≤ N }
{
    let mut mem = [0u8; N];
    save(s, &mut mem);
    channel::save(first, 0, &mut mem);
    channel::save(last, 15, &mut mem);
    mem
}

// Octets by two digits each.
#[derive(Clone, Copy)]
struct Hex<'a>(&'a [u8]);

impl fmt::Display for Hex<'_> {
    fn fmt<W: fmt::Write>(&self, f: &mut fmt::Formatter<W>) -> fmt::Result {
        for octet in self.0 {
            write!(f, "{octet:02x}")?;
        }
        Ok(())
    }
}

// The state part up to its last field, the channels' last row.
fn print_front(rt: &impl Print, mem: &[u8; 512]) -> io::Result<()> {
    println!(rt; "{}", Hex(&mem[..192]))
}

// What a memory holds, saved in another. A plain slice: here its Rows and its Image are made.
fn saved_again(mem: &[u8]) -> [u8; 512]
    requires { rows_end ≤ length mem.now }
{
    let rows = Rows { octets: mem };
    saved(Image { octets: mem }.unpack(), rows.load(0), rows.load(15))
}

// Saved, with the first and the last channel so, loaded, and what was loaded saved again.
fn through(rt: &impl Print, s: State, c: Channel) -> io::Result<()> {
    let mem = saved(s, c, c);
    print_front(rt, &mem)?;
    print_front(rt, &saved_again(&mem))
}

// Whether a memory holds a state.
fn print_verdict(rt: &impl Print, mem: &[u8]) -> io::Result<()> {
    let verdict = if holds_state(mem) { "well" } else { "damaged" };
    println!(rt; "{verdict}")
}

// One octet changed. Of the channels the first and the last are set up.
fn changed(rt: &impl Print, at: usize, octet: u8) -> io::Result<()> {
    let c = channel_of(MOST_CHANNEL);
    let mut mem: [u8; 5440] = saved(most(), c, c);
    octets::store(&mut mem, at, octet);
    print_verdict(rt, &mem)
}

// Each of some octets changed alone.
fn each_changed(rt: &impl Print, changes: &[(usize, u8)]) -> io::Result<()> {
    for &(at, octet) in changes {
        changed(rt, at, octet)?;
    }
    Ok(())
}

// The last code of each, and one past it: the place of the reply, the roles of the outputs, the input set, the modes, the marks of
// the outputs, what the chain's request drew and its master.
const CODES: [(usize, u8); 14] = [
    (19, 3),
    (19, 4),
    (22, 23),
    (22, 24),
    (23, 11),
    (23, 12),
    (27, 15),
    (27, 16),
    (29, 7),
    (29, 8),
    (54, 17),
    (54, 18),
    (55, 127),
    (55, 128),
];

// An owner is any octet; a length and a count are not.
const LENGTHS: [(usize, u8); 4] = [(0, 200), (48, 245), (49, 245), (56, 5)];

// The two octets that are not used among the counts; those that belong to no field, which may have any value, before the rows of the
// channels and behind them; and one behind the state part.
const UNUSED: [(usize, u8); 7] = [
    (62, 1),
    (63, 1),
    (68, 1),
    (127, 255),
    (192, 1),
    (511, 255),
    (512, 255),
];

// The ticks that remain and what they are refilled to: any octet, at the low end of each and at the high end.
const TICKS: [(usize, u8); 4] = [(44, 0), (47, 0), (64, 0), (67, 0)];

// Counts of the telegram that is read and of the reply, and sets that wait behind none.
const COUNTS: [(usize, u8); 10] = [
    // more than 246 data octets to read, more read than there are, some read before the data, all of them
    (32, 247),
    (33, 247),
    (31, 8),
    (31, 9),
    // the same of the reply
    (14, 247),
    (15, 247),
    (17, 6),
    (17, 7),
    // no parameters shown, no configuration shown, and a set of each waits
    (58, 0),
    (60, 0),
];

// One octet of the channels that are full, by its row: a length too long, too short for its count, 0 beside one that is not; a count above
// the length, and below it.
const FULL_CHANNELS: [(u8, u8); 10] = [
    (128, 241),
    (128, 239),
    (128, 0),
    (144, 241),
    (144, 239),
    (144, 0),
    (160, 241),
    (160, 239),
    (176, 241),
    (176, 0),
];

// A row of the channels: the first channel's octet and the last one's.
fn full_channels(rt: &impl Print) -> io::Result<()> {
    for (row, octet) in FULL_CHANNELS {
        let at = usize::from(row);
        changed(rt, at, octet)?;
        changed(rt, at + 15, octet)?;
    }
    Ok(())
}

// One octet of channels that are not set up: channel 1 beside one that is, channels 4 and 11 among such as are not either.
const FREE_CHANNELS: [(usize, u8); 8] = [
    (129, 4),
    (145, 4),
    (161, 1),
    (177, 1),
    (132, 4),
    (155, 4),
    (164, 1),
    (187, 1),
];

// A channel, as the first one and as the last one.
fn channel_alone(rt: &impl Print, c: Channel) -> io::Result<()> {
    let none = channel_of(NO_CHANNEL);
    let first: [u8; 1536] = saved(least(), c, none);
    print_verdict(rt, &first)?;
    let last: [u8; 1536] = saved(least(), none, c);
    print_verdict(rt, &last)
}

// Lengths and counts at their limits, and one past them.
fn channels_alone(rt: &impl Print) -> io::Result<()> {
    for c in [
        [4, 4, 0, 0],
        [4, 4, 4, 4],
        [4, 4, 5, 4],
        [4, 4, 4, 5],
        [3, 4, 0, 0],
        [4, 3, 0, 0],
        [4, 240, 4, 240],
        [240, 4, 240, 4],
        [241, 4, 0, 0],
        [4, 241, 0, 0],
        [4, 0, 0, 0],
        [0, 4, 0, 0],
        [0, 0, 1, 0],
        [0, 0, 0, 1],
    ] {
        channel_alone(rt, channel_of(c))?;
    }
    Ok(())
}

// As Start leaves it with all six lengths n and the last channel so, in a memory of so many octets and in one of eight fewer.
fn room(rt: &impl Print, n: u8, c: Channel, len: usize) -> io::Result<()> {
    let s = state::start::initial(Setup {
        address: 126,
        ident: 0,
        output_len: n,
        input_len: n,
        parameter_len: n,
        configuration_len: n,
        diagnosis_len: n,
        get_cfg_len: n,
    });
    let mem: [u8; 4992] = saved(s, channel_of(NO_CHANNEL), c);
    if let Some(front) = mem.get(..len) {
        print_verdict(rt, front)?;
        if let Some((shorter, _)) = front.split_last_chunk::<8>() {
            print_verdict(rt, shorter)?;
        }
    }
    Ok(())
}

// 64 ends at 1,536; 56 and 7 well before; 65 at 1,664; 244 at 4,480; 6 is no length of parameters. Channels of 4 and 4 end 16 octets
// behind, of 9 and 7 24, of 240 and 240 480.
fn rooms(rt: &impl Print) -> io::Result<()> {
    for (n, c, len) in [
        (64, NO_CHANNEL, 1536),
        (56, NO_CHANNEL, 1536),
        (7, NO_CHANNEL, 1536),
        (65, NO_CHANNEL, 1536),
        (65, NO_CHANNEL, 1664),
        (244, NO_CHANNEL, 4480),
        (6, NO_CHANNEL, 1536),
        (64, [4, 4, 0, 0], 1552),
        (64, [9, 7, 0, 0], 1560),
        (7, MOST_CHANNEL, 1120),
        (65, MOST_CHANNEL, 2144),
        (244, MOST_CHANNEL, 4960),
    ] {
        room(rt, n, channel_of(c), len)?;
    }
    Ok(())
}

// As Start leaves it with these lengths of outputs, inputs and parameters.
fn side(rt: &impl Print, output_len: u8, input_len: u8, parameter_len: u8) -> io::Result<()> {
    let s = state::start::initial(Setup {
        address: 126,
        ident: 0,
        output_len,
        input_len,
        parameter_len,
        configuration_len: 1,
        diagnosis_len: 6,
        get_cfg_len: 1,
    });
    let none = channel_of(NO_CHANNEL);
    let mem: [u8; 4480] = saved(s, none, none);
    print_verdict(rt, &mem)
}

// Outputs or inputs may be missing, not both; beside short parameters and beside long ones.
fn sides(rt: &impl Print) -> io::Result<()> {
    for (outputs, inputs) in [
        (0, 0),
        (0, 1),
        (1, 0),
        (0, 244),
        (244, 0),
        (0, 245),
        (245, 0),
    ] {
        side(rt, outputs, inputs, 7)?;
        side(rt, outputs, inputs, 244)?;
    }
    Ok(())
}

fn main(rt: HostRuntime) -> io::Result<()> {
    through(&rt, most(), channel_of(MOST_CHANNEL))?;
    through(&rt, least(), channel_of([4, 4, 0, 0]))?;
    each_changed(&rt, &CODES)?;
    each_changed(&rt, &LENGTHS)?;
    sides(&rt)?;
    each_changed(&rt, &UNUSED)?;
    each_changed(&rt, &TICKS)?;
    each_changed(&rt, &COUNTS)?;
    full_channels(&rt)?;
    each_changed(&rt, &FREE_CHANNELS)?;
    channels_alone(&rt)?;
    rooms(&rt)
}
