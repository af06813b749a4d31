// A channel by value, and its place in the state part: one octet in each of four rows of sixteen.
#![tactic(auto, unfolding(crate::specs::Image::loaded, crate::specs::Image::saved))]

ghost use Rattle.std.specs.Prelude.{ℕ, ◌≡◌, ◌<◌, ◌≤◌, length, slice_index_or};
ghost use Rattle.channels.specs.Image.{channels, rows_end, loaded, saved};

// The lengths of both buffers, 0 and 0 for a channel that is not set up, and how many octets of each are in use, 0 for none.
// By default it is not set up.
#[derive(Clone, Copy, PartialEq, Eq, Default, Debug)]
pub struct Channel {
    pub indication_len: u8,
    pub response_len: u8,
    pub indication_count: u8,
    pub response_count: u8,
}

// How many channels there are.
pub const CHANNELS: usize = 16;

// Where the first row begins.
pub const CHANNELS_AT: usize = 128;

// The rows, one behind the other.
pub const INDICATION_LENGTHS: usize = CHANNELS_AT;

pub const RESPONSE_LENGTHS: usize = CHANNELS_AT + CHANNELS;

pub const INDICATION_COUNTS: usize = CHANNELS_AT + 2 * CHANNELS;

pub const RESPONSE_COUNTS: usize = CHANNELS_AT + 3 * CHANNELS;

// A memory that has the rows, to read. small: of a slice in a struct the checker does not know that its octets are below 256.
#[derive(Clone, Copy)]
pub struct Rows<'a> {
    pub octets: &'a [u8],
    pub ghost whole: { rows_end ≤ length octets.now },
    pub ghost small: { (i : ℕ) → slice_index_or octets.now i 0 < 256 },
}

impl<'a> Rows<'a> {
    // Channel n.
    pub fn load(self, n: usize) -> Channel
        requires { n < channels }
        ensures { result ≡ loaded self.entry.octets.now n }
    {
        Channel {
            indication_len: self.octets[INDICATION_LENGTHS + n],
            response_len: self.octets[RESPONSE_LENGTHS + n],
            indication_count: self.octets[INDICATION_COUNTS + n],
            response_count: self.octets[RESPONSE_COUNTS + n],
        }
    }
}

// Channel n of a memory that has the rows, for a caller that holds it as a plain slice.
pub fn load(mem: &[u8], n: usize) -> Channel
    requires { (n < channels) × (rows_end ≤ length mem.now) }
    ensures { result ≡ loaded mem.now n }
{
    Rows { octets: mem }.load(n)
}

// Channel n is c. A plain slice, since it is written (deeds.rt).
pub fn save(c: Channel, n: usize, mem: &mut [u8])
    requires { (n < channels) × (rows_end ≤ length mem.old) }
    ensures { mem.new ≡ saved mem.old n c }
{
    mem[INDICATION_LENGTHS + n] = c.indication_len;
    mem[RESPONSE_LENGTHS + n] = c.response_len;
    mem[INDICATION_COUNTS + n] = c.indication_count;
    mem[RESPONSE_COUNTS + n] = c.response_count;
}
