// Octets in a word, eight of them, or four in half a word, the lowest first: held octet by octet to limits or to others, and summed.
ghost use Rattle.std.specs.Prelude.{◌≡◌, ◌+◌, ◌≤◌, true, ◌&&◌, length, replicate, ◌==◌};
ghost use Rattle.octets.specs.Part.{part};
ghost use Rattle.ranges.specs.Octets.{number, octets, at_most, lows, paired, eighths_of, total};

// The eight octets of the memory from a place on. The compiler makes one load of it.
// Not one function for both widths: each test below is made in one width alone, so a trait would have no other user.
pub fn word(mem: &[u8], at: usize) -> u64
    requires { at + 8 ≤ length mem.now }
    ensures { result ≡ number (part mem.now at 8) }
{
    u64::from_le_bytes([
        mem[at],
        mem[at + 1],
        mem[at + 2],
        mem[at + 3],
        mem[at + 4],
        mem[at + 5],
        mem[at + 6],
        mem[at + 7],
    ])
}

// The four octets of the memory from a place on, also one load.
pub fn half(mem: &[u8], at: usize) -> u32
    requires { at + 4 ≤ length mem.now }
    ensures { result ≡ number (part mem.now at 4) }
{
    u32::from_le_bytes([mem[at], mem[at + 1], mem[at + 2], mem[at + 3]])
}

// The low seven bits of every octet.
const LOW: u64 = 0x7f7f_7f7f_7f7f_7f7f;

// Bit 7 of every octet.
const TOP: u64 = 0x8080_8080_8080_8080;

// 0 exactly if each octet of x is at most its limit, an octet of the word of limits below 128. An octet from 128 on shows
// its own bit 7, so it does not matter what its sum carries into the next one.
pub fn above(x: u64, limits: u64) -> u64
    ensures { (result == 0) ≡ at_most (octets 8 x) (lows (octets 8 limits)) }
{
    let sum = x.wrapping_add(!limits & LOW);
    (x | sum) & TOP
}

// 0 exactly if each octet of x is from its least to its most, both below 128. Where no octet is above its most, none of the
// differences 127 + least - octet takes from the next one, and it has bit 7 set exactly if the octet is below its least.
pub fn outside(x: u64, least: u64, most: u64) -> u64
    ensures { (result == 0) ≡ (at_most (octets 8 x) (lows (octets 8 most)) && at_most (lows (octets 8 least)) (octets 8 x)) }
{
    let below = (LOW + (least & LOW)).wrapping_sub(x);
    above(x, most) | below & TOP
}

// The same of half a word.
const LOW_HALF: u32 = 0x7f7f_7f7f;

const TOP_HALF: u32 = 0x8080_8080;

// 0 exactly if each octet of x is at most its octet of the limits. Bit 7 of each octet shows whether the difference takes from the
// next one; below the first that does none has taken from its next.
pub fn exceeds(x: u32, limits: u32) -> u32
    ensures { (result == 0) ≡ at_most (octets 4 x) (octets 4 limits) }
{
    let rest = limits.wrapping_sub(x);
    (x & !limits | (x | !limits) & rest) & TOP_HALF
}

// 0 exactly if each octet of x and its octet of y are both 0, or both at least 4. No sum of seven bits carries into the next octet.
pub fn unpaired(x: u32, y: u32) -> u32
    ensures { (result == 0) ≡ paired (octets 4 x) (octets 4 y) }
{
    let any = x | y;
    let some = (any & LOW_HALF) + LOW_HALF | any;
    let first = (x & LOW_HALF) + 0x7c7c_7c7c | x;
    let second = (y & LOW_HALF) + 0x7c7c_7c7c | y;
    some & !(first & second) & TOP_HALF
}

// An eighth of each octet, rounded up.
pub fn eighths(x: u32) -> u32
    requires { at_most (octets 4 x) (replicate 4 248) ≡ true }
    ensures { (result ≡ number (eighths_of (octets 4 x))) × (result ≤ 522133279) }
{
    (x + 0x0707_0707) / 8 & 0x1f1f_1f1f
}

// The sum of the octets.
pub fn sum_of(x: u32) -> u32
    ensures { result ≡ total (octets 4 x) }
{
    let pairs = (x & 0x00ff_00ff) + (x / 256 & 0x00ff_00ff);
    (pairs + pairs / 65536) % 65536
}
