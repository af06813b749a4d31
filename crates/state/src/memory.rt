// Whether a memory holds a state.
ghost use Rattle.std.specs.Prelude.{◌≡◌, ◌&&◌, ◌≤◌, leb, length};
ghost use Rattle.state.specs.Layout.{state_length, end_of, last_end};
ghost use Rattle.channels.specs.Rules.{well_channels};
ghost use Rattle.channels.specs.Places.{lengths_in};
ghost use Rattle.state.specs.Memory.{holds_state, Holds};
ghost use Rattle.state.specs.Unpack.{unpacked};
ghost use Rattle.state.specs.Well.{all, lengths_tests};

use crate::load::Image;
use crate::{layout, well};
use channels::channel::CHANNELS_AT;
use channels::survey::survey_of;
use ranges::checks;

// The lengths, and whether the buffers end in the memory where no channel has any. Of short lengths, and in a memory that has room for all,
// the sum need not be made.
fn has_room(image: Image) -> bool
    ensures { result ≡ (all (lengths_tests image.entry.octets.now) && leb (end_of (unpacked image.entry.octets.now).setup) (length image.entry.octets.now)) }
{
    if well::short_lengths(image) & (layout::SHORT_END <= image.octets.len()) {
        return true;
    }
    if well::short_inputs(image) & (layout::SHORT_END <= image.octets.len()) {
        return true;
    }
    if well::exchanges_nothing(image) {
        return false;
    }
    if !well::well_lengths(image) {
        return false;
    }
    if layout::LONG_END <= image.octets.len() {
        return true;
    }
    layout::end_of(image.setup()) <= image.octets.len()
}

// The channels, and whether the buffers, theirs behind the others, end in the memory. bound: where the others end at most, so that their
// sum need not be made in a memory that has room for so much.
fn channels_fit(mem: &[u8], bound: usize) -> bool
    requires { (state_length ≤ length mem.now) × (end_of (unpacked mem.now).setup ≤ bound) × (bound ≤ 65536) }
    ensures { result ≡ (well_channels mem.now && leb (last_end (lengths_in mem.now) (unpacked mem.now).setup) (length mem.now)) }
{
    let Some(room) = survey_of(mem) else {
        return false;
    };
    if bound + room <= mem.len() {
        return true;
    }
    layout::end_of(Image { octets: mem }.setup()) + room <= mem.len()
}

// The lengths, the channels and the room of a station that has channels. It calls `channels_fit` in two places: a function with two callers the
// compiler leaves outside, so that a call of a station without channels saves no registers for it.
fn has_room_for_channels(mem: &[u8]) -> bool
    requires { state_length ≤ length mem.now }
    ensures { result ≡ (all (lengths_tests mem.now) && (well_channels mem.now && leb (last_end (lengths_in mem.now) (unpacked mem.now).setup) (length mem.now))) }
{
    let image = Image { octets: mem };
    if well::short_lengths(image) {
        return channels_fit(mem, layout::SHORT_END);
    }
    if well::exchanges_nothing(image) {
        return false;
    }
    if !well::well_lengths(image) {
        return false;
    }
    channels_fit(mem, layout::LONG_END)
}

// The image of a state in front, and room for its buffers.
pub fn holds_state(mem: &[u8]) -> bool
    ensures { result ≡ holds_state mem.now }
{
    if mem.len() < layout::STATE_LENGTH {
        return false;
    }
    let image = Image { octets: mem };
    if !well::well_counts(image) {
        return false;
    }
    if !well::well_line(image) {
        return false;
    }
    if !well::well_codes(image) {
        return false;
    }
    if checks::nothing_in(mem, CHANNELS_AT) {
        return has_room(image);
    }
    has_room_for_channels(mem)
}

// The image in front of a memory that holds a state.
#[derive(Clone, Copy)]
pub struct Held<'a> {
    pub image: Image<'a>,
    pub ghost holds: { ∥ Holds image.octets.now (unpacked image.octets.now) ∥₁ },
}
