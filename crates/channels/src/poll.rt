// The newest poll of a channel that drew its response, and its place in the state part: two octets behind the rows.
ghost use Rattle.std.specs.Prelude.{◌≡◌, ◌≤◌, length};
ghost use Rattle.channels.specs.Image.{poll_end, poll_in, poll_saved};

use crate::channel::{CHANNELS, RESPONSE_COUNTS};

// The channel, which is the poll's DSAP, and its SSAP. The reply to it, and to its repeat, is formed by them.
#[derive(Clone, Copy, PartialEq, Eq, Debug)]
pub struct Poll {
    pub channel: u8,
    pub ssap: u8,
}

// Where it lies: behind the rows.
const POLL_AT: usize = RESPONSE_COUNTS + CHANNELS;

// The poll of a memory.
pub fn load_poll(mem: &[u8]) -> Poll
    requires { poll_end ≤ length mem.now }
    ensures { result ≡ poll_in mem.now }
{
    Poll {
        channel: mem[POLL_AT],
        ssap: mem[POLL_AT + 1],
    }
}

// The poll is p.
pub fn save_poll(p: Poll, mem: &mut [u8])
    requires { poll_end ≤ length mem.old }
    ensures { mem.new ≡ poll_saved mem.old p }
{
    mem[POLL_AT] = p.channel;
    mem[POLL_AT + 1] = p.ssap;
}
