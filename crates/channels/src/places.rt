// Where the buffers of channel n lie: behind those of the channels before it. The sum is made where it is needed; nothing of it is kept.
ghost use Rattle.std.specs.Prelude.{◌≡◌, ◌<◌, ◌≤◌, length};
ghost use Rattle.channels.specs.Image.{channels, rows_end};
ghost use Rattle.channels.specs.Places.{indication, response, lengths_in, room_from, buffer_at};

use crate::channel::{Rows, load};
use octets::rounded_up;

// How much room the buffers of the channels before channel n take.
fn room_before(rows: Rows, n: usize) -> usize
    requires { n < channels }
    ensures { (result ≡ room_from (lengths_in rows.entry.octets.now) 0 n) × (result ≤ 8192) }
{
    let mut room = 0;
    for k in 0..n {
        let c = rows.load(k);
        room += rounded_up(c.indication_len) + rounded_up(c.response_len);
    }
    room
}

// Where its indication begins. from: where the first channel's buffers begin.
pub fn indication_at(mem: &[u8], from: usize, n: usize) -> usize
    requires { (n < channels) × (rows_end ≤ length mem.now) × (from ≤ 65536) }
    ensures { (result ≡ buffer_at (lengths_in mem.now) from n indication) × (result ≤ 73728) }
{
    from + room_before(Rows { octets: mem }, n)
}

// Where its response begins.
pub fn response_at(mem: &[u8], from: usize, n: usize) -> usize
    requires { (n < channels) × (rows_end ≤ length mem.now) × (from ≤ 65536) }
    ensures { result ≡ buffer_at (lengths_in mem.now) from n response }
{
    let c = load(mem, n);
    indication_at(mem, from, n) + rounded_up(c.indication_len)
}
