// The bench loop: it holds the unpacked state in a local and lends it for every octet and Tick; the state is unpacked once,
// and packed again at the end. Safe is asked as it is at the steps (station/src/reading.rt); whether the memory is well is an answer here and no
// refusal.
ghost use Rattle.std.specs.Prelude.{◌≡◌, ◌++◌};
ghost use Rattle.steps.specs.Calls.{well_memory, memory_after};
ghost use Rattle.steps.specs.Safe.{Safe};
ghost use Rattle.steps.specs.Stepped.{Steps};
ghost use Rattle.lent.specs.Run.{run_beats, well_received, ticks, turn, calls};

use crate::{octet, tick};
use state::image::save;
use state::load::Image;
use state::state::State;
use station::bus::pause;
use station::memory::is_well;

// Octets.
pub fn listen(mut state: State, memory: &mut [u8], octets: &[u8]) -> State
    requires { Safe state memory.old }
    ensures { Steps (run_beats state memory.old (well_received octets.now)) result memory.new }
{
    for &value in octets {
        octet(&mut state, memory, value, false);
    }
    state
}

// Ticks.
pub fn wait(mut state: State, memory: &mut [u8], count: usize) -> State
    requires { Safe state memory.old }
    ensures { Steps (run_beats state memory.old (ticks count)) result memory.new }
{
    for _ in 0..count {
        tick(&mut state, memory);
    }
    state
}

// A telegram after a gap, then Ticks.
#[tactic(auto, using(steps::proofs::KeepsSafe::safe_steps, steps::proofs::KeepsSafe::safe_paused, crate::proofs::Partly::run_append))]
pub fn take_turn(state: State, memory: &mut [u8], telegram: &[u8], count: usize) -> State
    requires { Safe state memory.old }
    ensures { Steps (run_beats state memory.old (turn telegram.now count)) result memory.new }
{
    let paused = pause(state, memory);
    let listened = listen(paused, memory, telegram);
    wait(listened, memory, count)
}

// Two telegrams on the unpacked state: the memory is left as the exported calls leave it. Whether it was well.
#[tactic(auto, using(steps::proofs::Guarded::well_holds, steps::proofs::Holding::holds_safe))]
pub fn exchange(memory: &mut [u8], first: &[u8], second: &[u8], count: usize) -> bool
    ensures { (result ≡ well_memory memory.old) × (memory.new ≡ memory_after memory.old (calls (turn first.now count ++ turn second.now count))) }
{
    if !is_well(&memory[..]) {
        return false;
    }
    let octets = &memory[..];
    let state = Image { octets }.unpack();
    let held = take_turn(state, memory, first, count);
    let done = take_turn(held, memory, second, count);
    save(done, memory);
    true
}
