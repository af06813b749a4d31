// What becomes of a channel. A request is open, so that the channel is occupied, exactly if the indication's count is not 0.
// The functions that write ask for the rows one by one: a type over &mut would need a clause in each that the reference stays the same.
// Those that read take a plain slice too: what their callers hold.
ghost use Rattle.std.specs.Prelude.{◌≡◌, ◌+◌, ◌<◌, ◌≤◌, length};
ghost use Rattle.channels.specs.Image.{channels, rows_end};
ghost use Rattle.channels.specs.Deeds.{is_open, is_given, takes_response, is_set_up, filled, responded, freed, channel_in, filled_in, freed_in, responded_in, emptied};

use crate::channel::{CHANNELS, Channel, INDICATION_COUNTS, load, save};
use octets::{clear_at, copy_at};

// A request is open.
pub fn is_open(c: Channel) -> bool
    ensures { result ≡ is_open c }
{
    c.indication_count != 0
}

// A response is kept, whether its reply ended or not.
pub fn is_given(c: Channel) -> bool
    ensures { result ≡ is_given c }
{
    c.response_count != 0
}

// It takes a response of k octets: a request is open, none was given, and its buffer holds them.
pub fn takes_response(c: Channel, k: usize) -> bool
    ensures { result ≡ takes_response c k }
{
    is_open(c) & !is_given(c) & (k != 0) & (k <= c.response_len as usize)
}

// Whether there is a channel of that number, and it is set up.
pub fn is_set_up(mem: &[u8], n: u32) -> bool
    requires { rows_end ≤ length mem.now }
    ensures { result ≡ is_set_up mem.now n }
{
    n < 16 && load(mem, n as usize).indication_len != 0
}

// A channel that a request of so many octets filled: no response stands.
fn filled(mut c: Channel, count: u8) -> Channel
    ensures { result ≡ filled c count }
{
    c.indication_count = count;
    c.response_count = 0;
    c
}

// With a response of so many octets.
fn responded(mut c: Channel, count: u8) -> Channel
    ensures { result ≡ responded c count }
{
    c.response_count = count;
    c
}

// Freed by the end of the response's reply: the response is kept for a repeat of the poll.
fn freed(mut c: Channel) -> Channel
    ensures { result ≡ freed c }
{
    c.indication_count = 0;
    c
}

// Channel n, where there is one of that number, and else one that is not set up.
pub fn channel_in(mem: &[u8], n: u8) -> Channel
    requires { rows_end ≤ length mem.now }
    ensures { result ≡ channel_in mem.now n }
{
    if n < 16 {
        load(mem, n as usize)
    } else {
        Channel::default()
    }
}

// A request of so many octets, which stand in its buffer, fills channel n.
// Not one function that takes the change as a closure, for this and `free`: its contract would be longer than both.
pub fn fill(mem: &mut [u8], n: u8, count: u8)
    requires { rows_end ≤ length mem.old }
    ensures { mem.new ≡ filled_in mem.old n count }
{
    if n < 16 {
        let c = load(mem, n as usize);
        save(filled(c, count), n as usize, mem);
    }
}

// The end of a response's reply frees channel n.
pub fn free(mem: &mut [u8], n: u8)
    requires { rows_end ≤ length mem.old }
    ensures { mem.new ≡ freed_in mem.old n }
{
    if n < 16 {
        let c = load(mem, n as usize);
        save(freed(c), n as usize, mem);
    }
}

// A response is written to its place, and channel n counts it.
pub fn respond(mem: &mut [u8], n: usize, at: usize, response: &[u8])
    requires { (n < channels) × (rows_end ≤ length mem.old) × (at + length response.now ≤ length mem.old) × (length response.now ≤ 255) }
    ensures { mem.new ≡ responded_in mem.old n at response.now }
{
    let c = load(mem, n);
    copy_at(mem, at, response);
    save(responded(c, response.len() as u8), n, mem);
}

// WAIT_PRM empties all channels: no count is left.
pub fn empty_all(mem: &mut [u8])
    requires { rows_end ≤ length mem.old }
    ensures { mem.new ≡ emptied mem.old }
{
    clear_at(mem, INDICATION_COUNTS, 2 * CHANNELS);
}
