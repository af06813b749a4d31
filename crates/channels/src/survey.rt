// What the damage check finds of the channels: four of them at once, an octet of each in half a word.
ghost use Rattle.std.specs.Prelude.{◌≡◌, true, ◌+◌, ◌*◌, ◌≤◌, eqb, length};
ghost use Rattle.ranges.specs.Octets.{octets};
ghost use Rattle.channels.specs.Image.{channels, rows_end};
ghost use Rattle.channels.specs.Rules.{lengths_test, all_keep, well_at, each_from};
ghost use Rattle.channels.specs.Places.{lengths_in, room_from, surveyed};

use crate::channel::{
    CHANNELS, CHANNELS_AT, INDICATION_COUNTS, INDICATION_LENGTHS, RESPONSE_COUNTS,
    RESPONSE_LENGTHS, Rows,
};
use ranges::{checks, word};

// Both lengths of a channel: 0 and 0, or each 4 to 240. By comparisons: with a range's `contains` the proof does not close by itself.
pub fn lengths_ok(a: u8, b: u8) -> bool
    ensures { result ≡ lengths_test a b }
{
    if a == 0 {
        return b == 0;
    }
    ((4 <= a) & (a <= 240)) & ((4 <= b) & (b <= 240))
}

// The most octets of a buffer.
const MOST: u32 = 0xf0f0_f0f0;

// Four channels by their lengths and counts: 0 exactly if each of them keeps the rules.
fn broken(a: u32, b: u32, c: u32, d: u32) -> u32
    ensures { eqb result 0 ≡ all_keep (octets 4 a) (octets 4 b) (octets 4 c) (octets 4 d) }
{
    word::exceeds(a, MOST)
        | word::exceeds(b, MOST)
        | word::unpaired(a, b)
        | word::exceeds(c, a)
        | word::exceeds(d, b)
}

// Four channels from channel k on: 0 exactly if each of them keeps the rules.
fn broken_at(rows: Rows, k: usize) -> u32
    requires { k + 4 ≤ channels }
    ensures { eqb result 0 ≡ each_from (well_at rows.entry.octets.now) k 4 }
{
    broken(
        word::half(rows.octets, INDICATION_LENGTHS + k),
        word::half(rows.octets, RESPONSE_LENGTHS + k),
        word::half(rows.octets, INDICATION_COUNTS + k),
        word::half(rows.octets, RESPONSE_COUNTS + k),
    )
}

// An eighth of the room that the buffers of four channels from channel k on take.
fn eighths_at(rows: Rows, k: usize) -> u32
    requires { (k + 4 ≤ channels) × (each_from (well_at rows.octets.now) k 4 ≡ true) }
    ensures { (8 * result ≡ room_from (lengths_in rows.entry.octets.now) k 4) × (result ≤ 256) }
{
    let indications = word::eighths(word::half(rows.octets, INDICATION_LENGTHS + k));
    let responses = word::eighths(word::half(rows.octets, RESPONSE_LENGTHS + k));
    word::sum_of(indications + responses)
}

// How much room the buffers of the first four channels take; none where one breaks the rules.
fn first_four(rows: Rows) -> Option<usize>
    ensures { result ≡ surveyed rows.entry.octets.now 0 4 }
{
    if broken_at(rows, 0) != 0 {
        return None;
    }
    Some(8 * (eighths_at(rows, 0) as usize))
}

// All of them: 0 exactly if each keeps the rules. One comparison with 0 at the end: the compiler makes vectors of the four.
fn all_broken(rows: Rows) -> u32
    ensures { eqb result 0 ≡ each_from (well_at rows.entry.octets.now) 0 channels }
{
    broken_at(rows, 0) | broken_at(rows, 4) | broken_at(rows, 8) | broken_at(rows, 12)
}

// An eighth of the room that all buffers take.
fn all_eighths(rows: Rows) -> u32
    requires { each_from (well_at rows.octets.now) 0 channels ≡ true }
    ensures { (8 * result ≡ room_from (lengths_in rows.entry.octets.now) 0 channels) × (result ≤ 1024) }
{
    eighths_at(rows, 0) + eighths_at(rows, 4) + eighths_at(rows, 8) + eighths_at(rows, 12)
}

// The same of all channels. Not one function for some groups of four: its loop takes a quarter more instructions on Cortex-M0+.
fn all(rows: Rows) -> Option<usize>
    ensures { result ≡ surveyed rows.entry.octets.now 0 channels }
{
    if all_broken(rows) != 0 {
        return None;
    }
    Some(8 * (all_eighths(rows) as usize))
}

// How much room the buffers of all channels take; none where one breaks the rules. Few stations use more than four channels.
// A plain slice: here its Rows are made.
pub fn survey_of(mem: &[u8]) -> Option<usize>
    requires { rows_end ≤ length mem.now }
    ensures { result ≡ surveyed mem.now 0 channels }
{
    let rows = Rows { octets: mem };
    if !checks::nothing_across(mem, CHANNELS_AT + 4, CHANNELS) {
        return all(rows);
    }
    if !(checks::nothing_across(mem, CHANNELS_AT + 8, CHANNELS)
        & checks::nothing_across(mem, CHANNELS_AT + 12, CHANNELS))
    {
        return all(rows);
    }
    first_four(rows)
}
