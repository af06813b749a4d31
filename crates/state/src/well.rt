// Whether the octets of the state part are the image of a sound state. What is nearly always so is tested by words: short lengths, and
// no set open and no diagnosis delayed. Each test that fails ends the check. The single octets of a word are tested before the word
// where that can be: of a word that is loaded already the compiler would take the octets by shifts, in the usual case too.
ghost use Rattle.std.specs.Prelude.{◌≡◌, ◌++◌};
ghost use Rattle.state.specs.Short.{short_tests, short_inputs};
ghost use Rattle.state.specs.Unpack.{setup_in};
ghost use Rattle.state.specs.Well.{all, within, none_or, set_counts, part_done, exchanges_nothing, range_tests, chain_tests, set_tests, count_tests, line_tests, code_tests};

use crate::load::Image;
use ranges::checks;

// lo to hi.
fn within(lo: u8, x: u8, hi: u8) -> bool
    ensures { result ≡ within lo x hi }
{
    (lo <= x) & (x <= hi)
}

// 0 for none, or lo to hi.
fn none_or(lo: u8, x: u8, hi: u8) -> bool
    ensures { result ≡ none_or lo x hi }
{
    if x == 0 {
        return true;
    }
    within(lo, x, hi)
}

// The counts of a set that is shown and of one that waits behind it.
fn set_counts(lo: u8, shown: u8, waiting: u8, hi: u8) -> bool
    ensures { result ≡ set_counts lo shown waiting hi }
{
    if shown == 0 {
        return waiting == 0;
    }
    if !within(lo, shown, hi) {
        return false;
    }
    none_or(lo, waiting, hi)
}

// Of count data octets none is done, or the phase has come to the data and no more are done than there are.
fn part_done(first: u8, phase: u8, count: u8, done: u8) -> bool
    ensures { result ≡ part_done first phase count done }
{
    if done == 0 {
        return true;
    }
    (first <= phase) & (done <= count)
}

// The counts of the telegram that is read and of the reply.
pub fn well_line(image: Image) -> bool
    ensures { result ≡ all (line_tests image.entry.octets.now) }
{
    if !(image.octets[32] <= 246) {
        return false;
    }
    if !part_done(9, image.octets[31], image.octets[32], image.octets[33]) {
        return false;
    }
    if !(image.octets[14] <= 246) {
        return false;
    }
    part_done(7, image.octets[17], image.octets[14], image.octets[15])
}

// The counts of a delayed diagnosis and of the sets, one by one.
fn well_sets(image: Image) -> bool
    ensures { result ≡ all (set_tests image.entry.octets.now) }
{
    if !none_or(6, image.octets[57], image.octets[52]) {
        return false;
    }
    if !set_counts(7, image.octets[58], image.octets[59], image.octets[50]) {
        return false;
    }
    if !set_counts(1, image.octets[60], image.octets[61], image.octets[51]) {
        return false;
    }
    (image.octets[62] == 0) & (image.octets[63] == 0)
}

// The counts of diagnosis and of the sets. The two limits of the first are tested one after the other: by one test the compiler would make
// numbers of both answers.
pub fn well_counts(image: Image) -> bool
    ensures { result ≡ all (count_tests image.entry.octets.now) }
{
    if image.octets[56] < 6 {
        return false;
    }
    if image.octets[52] < image.octets[56] {
        return false;
    }
    if checks::nothing_behind(image.octets, 56) {
        return true;
    }
    well_sets(image)
}

// The codes: octets 16 to 31, each of them below 128.
pub fn well_codes(image: Image) -> bool
    ensures { result ≡ all (code_tests image.entry.octets.now) }
{
    checks::two_words_within(
        image.octets,
        16,
        0x0b17_027e_0308_0a03,
        0x0c03_0701_0f07_0505,
    )
}

// The lengths of a station with outputs, where all of them are short, and the chain, which shares their word. Like the codes one test with
// limits, but another promise.
pub fn short_lengths(image: Image) -> bool
    ensures { result ≡ all (short_tests image.entry.octets.now) }
{
    checks::word_between(
        image.octets,
        48,
        0x0000_0106_0107_0001,
        0x7f11_4040_4040_4040,
    )
}

// The same of a station without outputs. Its word begins behind their length: of a word that is tested twice the compiler would keep a
// copy, in the usual case too.
pub fn short_inputs(image: Image) -> bool
    ensures { result ≡ short_inputs image.entry.octets.now }
{
    if image.octets[48] != 0 {
        return false;
    }
    checks::word_between(
        image.octets,
        49,
        0x0000_0001_0601_0701,
        0x7f7f_1140_4040_4040,
    )
}

// Neither outputs nor inputs.
pub fn exchanges_nothing(image: Image) -> bool
    ensures { result ≡ exchanges_nothing (setup_in image.entry.octets.now 0) }
{
    if image.octets[48] != 0 {
        return false;
    }
    image.octets[49] == 0
}

// The chain and the lengths, one by one.
pub fn well_lengths(image: Image) -> bool
    ensures { result ≡ all (chain_tests image.entry.octets.now ++ range_tests (setup_in image.entry.octets.now 0)) }
{
    if !((image.octets[54] <= 17) & (image.octets[55] <= 127)) {
        return false;
    }
    if !(image.octets[48] <= 244) {
        return false;
    }
    if !(image.octets[49] <= 244) {
        return false;
    }
    if !within(7, image.octets[50], 244) {
        return false;
    }
    if !within(1, image.octets[51], 244) {
        return false;
    }
    if !within(6, image.octets[52], 244) {
        return false;
    }
    within(1, image.octets[53], 244)
}
