// The unpacked state, lent to be changed by octet and tick. Each hands it by value to the station's step and stores what
// comes back. Safe is asked as it is at the steps (station/src/reading.rt).
#![tactic(auto)]

pub mod bench;
pub mod exports;

ghost use Rattle.steps.specs.Safe.{Safe};
ghost use Rattle.steps.specs.Stepped.{Steps};
ghost use Rattle.steps.specs.Reading.{heard};
ghost use Rattle.steps.specs.Bus.{elapsed};

use state::state::State;
use station::bus::elapse;
use station::reading::hear;

// The bus's octet, flagged bad by the receiver or not.
pub fn octet(state: &mut State, memory: &mut [u8], value: u8, bad: bool)
    requires { Safe state.old memory.old }
    ensures { Steps (heard state.old memory.old value bad) state.new memory.new }
{
    *state = hear(*state, memory, value, bad);
}

// A Tick: 1 ms.
pub fn tick(state: &mut State, memory: &mut [u8])
    requires { Safe state.old memory.old }
    ensures { Steps (elapsed state.old memory.old) state.new memory.new }
{
    *state = elapse(*state, memory);
}
