// Start over the one lent memory: the memory's length, what is asked for, and the room are checked in this order.
ghost use Rattle.std.specs.Prelude.{◌≡◌, length};
ghost use Rattle.channels.specs.Setting.{length_octets};
ghost use Rattle.state.specs.Answer.{Meets};
ghost use Rattle.state.specs.Start.{given_by};
ghost use Rattle.steps.specs.Calls.{started_in, started};

use crate::memory::length_ok;
use state::answer::{Answer, Refusal};
use state::setup::{Given, Setup};
use state::start::{last_end, lay_out, setup_of};

// A setup that was accepted is laid out, if its buffers and those of the channels have room.
#[tactic(auto, unfolding(steps::specs::Calls::started_in))]
fn start_in(mem: &mut [u8], setup: Setup, get_cfg: &[u8], channels: &[u8]) -> Answer
    requires { (setup.get_cfg_len ≡ length get_cfg.now) × (length channels.now ≡ length_octets) }
    ensures { Meets (started_in mem.old setup get_cfg.now channels.now) result mem.new }
{
    let end = last_end(setup, channels);
    if mem.len() < end {
        return Err(Refusal::Room);
    }
    lay_out(mem, setup, get_cfg, channels, end);
    Ok(0)
}

// Start.
pub fn start(mem: &mut [u8], given: Given, get_cfg: &[u8], channels: &[u8]) -> Answer
    ensures { Meets (started mem.old (given_by given (length get_cfg.now)) get_cfg.now channels.now) result mem.new }
{
    if !length_ok(mem.len()) {
        return Err(Refusal::MemoryLength);
    }
    let setup = setup_of(given, get_cfg.len(), channels)?;
    start_in(mem, setup, get_cfg, channels)
}
