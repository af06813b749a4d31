// The export of the bench loop to C: the function of its name in the crate lent, and promises what that does.
#![tactic(auto)]

ghost use Rattle.std.specs.Prelude.{◌++◌};
ghost use Rattle.lent.specs.Run.{turn, calls};
ghost use Rattle.lent.specs.Exports.{Returns};

// Two telegrams on the unpacked state, each after a gap and with count Ticks behind it: 1, or 0 if the memory is damaged.
#[unsafe(no_mangle)]
pub extern "C" fn lent_exchange(memory: &mut [u8], first: &[u8], second: &[u8], count: u32) -> i64
    ensures { Returns memory.old (calls (turn first.now count ++ turn second.now count)) result memory.new }
{
    lent::exports::lent_exchange(memory, first, second, count)
}
