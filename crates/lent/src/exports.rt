// The bench loop as a program in C calls it.
ghost use Rattle.std.specs.Prelude.{◌++◌};
ghost use Rattle.lent.specs.Run.{turn, calls};
ghost use Rattle.lent.specs.Exports.{Returns};

use crate::bench;

// Two telegrams on the unpacked state, each after a gap and with count Ticks behind it: 1, or 0 if the memory is damaged.
pub fn lent_exchange(memory: &mut [u8], first: &[u8], second: &[u8], count: u32) -> i64
    ensures { Returns memory.old (calls (turn first.now count ++ turn second.now count)) result memory.new }
{
    i64::from(bench::exchange(memory, first, second, count as usize))
}
