// Start: the lengths that it is given become the channels.
ghost use Rattle.std.specs.Prelude.{◌≡◌, ◌≤◌, length};
ghost use Rattle.channels.specs.Image.{channels, rows_end};
ghost use Rattle.channels.specs.Places.{room_of};
ghost use Rattle.channels.specs.Setting.{length_octets, lengths_given, lengths_ok, set_up};

use crate::channel::{CHANNELS, Channel, save};
use crate::survey;
use octets::rounded_up;

// Whether there are 32 octets, and every channel's lengths are allowed.
// A loop over numbers here and below, not one over pairs: an iterator over pairs keeps addresses beside numbers (cross/widths.awk refuses that).
pub fn lengths_ok(lengths: &[u8]) -> bool
    ensures { result ≡ lengths_ok lengths.now }
{
    if lengths.len() != 32 {
        return false;
    }
    for n in 0..CHANNELS {
        if !survey::lengths_ok(lengths[2 * n], lengths[2 * n + 1]) {
            return false;
        }
    }
    true
}

// How much room the buffers take.
pub fn room_for(lengths: &[u8]) -> usize
    requires { length lengths.now ≡ length_octets }
    ensures { (result ≡ room_of (lengths_given lengths.now)) × (result ≤ 8192) }
{
    let mut room = 0;
    for n in 0..CHANNELS {
        room += rounded_up(lengths[2 * n]) + rounded_up(lengths[2 * n + 1]);
    }
    room
}

// Every channel with its lengths, and free. A plain slice, since it is written (deeds.rt).
pub fn set_up(mem: &mut [u8], lengths: &[u8])
    requires { (length lengths.now ≡ length_octets) × (rows_end ≤ length mem.old) }
    ensures { mem.new ≡ set_up mem.old lengths.now channels }
{
    for n in 0..CHANNELS {
        let free = Channel {
            indication_len: lengths[2 * n],
            response_len: lengths[2 * n + 1],
            indication_count: 0,
            response_count: 0,
        };
        save(free, n, mem);
    }
}
