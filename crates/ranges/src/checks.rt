// Octets of a memory held to limits below 128, by words.
ghost use Rattle.std.specs.Prelude.{◌≡◌, ◌+◌, ◌*◌, ◌≤◌, ◌&&◌, ◌++◌, length, replicate, ◌==◌};
ghost use Rattle.octets.specs.Part.{part};
ghost use Rattle.ranges.specs.Octets.{octets, at_most, lows, nothing_at};

use crate::word;

// Whether each of the sixteen octets from a place on is at most its limit. Both words are tested by one comparison.
pub fn two_words_within(mem: &[u8], at: usize, first: u64, second: u64) -> bool
    requires { at + 16 ≤ length mem.now }
    ensures { result ≡ at_most (part mem.now at 16) (lows (octets 8 first) ++ lows (octets 8 second)) }
{
    (word::above(word::word(mem, at), first) | word::above(word::word(mem, at + 8), second)) == 0
}

// Whether each of the eight octets from a place on is from its least to its most.
pub fn word_between(mem: &[u8], at: usize, least: u64, most: u64) -> bool
    requires { at + 8 ≤ length mem.now }
    ensures { result ≡ (at_most (part mem.now at 8) (lows (octets 8 most)) && at_most (lows (octets 8 least)) (part mem.now at 8)) }
{
    word::outside(word::word(mem, at), least, most) == 0
}

// Whether the seven octets behind a place are 0.
pub fn nothing_behind(mem: &[u8], at: usize) -> bool
    requires { at + 8 ≤ length mem.now }
    ensures { result ≡ at_most (part mem.now (at + 1) 7) (replicate 7 0) }
{
    word::word(mem, at) < 256
}

// 0 exactly if the sixteen octets from a place on are. By half words: of whole ones that are only compared with 0 the compiler for a
// processor of 32 bits loads the upper octets one by one.
fn four_halves(mem: &[u8], at: usize) -> u32
    requires { at + 16 ≤ length mem.now }
    ensures { (result == 0) ≡ at_most (part mem.now at 16) (replicate 16 0) }
{
    word::half(mem, at)
        | word::half(mem, at + 4)
        | word::half(mem, at + 8)
        | word::half(mem, at + 12)
}

// Whether the sixty-four octets from a place on are 0.
pub fn nothing_in(mem: &[u8], at: usize) -> bool
    requires { at + 64 ≤ length mem.now }
    ensures { result ≡ at_most (part mem.now at 64) (replicate 64 0) }
{
    (four_halves(mem, at)
        | four_halves(mem, at + 16)
        | four_halves(mem, at + 32)
        | four_halves(mem, at + 48))
        == 0
}

// Whether the four octets at each of four places are 0, of which the first is given and each other lies a step behind the one before it.
pub fn nothing_across(mem: &[u8], at: usize, step: usize) -> bool
    requires { (at + 3 * step + 4 ≤ length mem.now) × (step ≤ 65536) }
    ensures { result ≡ (nothing_at mem.now at && (nothing_at mem.now (at + step) && (nothing_at mem.now (at + 2 * step) && nothing_at mem.now (at + 3 * step)))) }
{
    (word::half(mem, at)
        | word::half(mem, at + step)
        | word::half(mem, at + 2 * step)
        | word::half(mem, at + 3 * step))
        == 0
}
