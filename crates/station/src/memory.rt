// The whole lent memory: its length, and whether it is damaged.
#![tactic(auto, unfolding(steps::specs::Calls::length_ok, steps::specs::Calls::well_memory))]

ghost use Rattle.std.specs.Prelude.{◌≡◌, true, false, OnOk, IfErr};
ghost use Rattle.state.specs.declared.answer.Refusal.TheVariants.{Damaged};
ghost use Rattle.state.specs.Well.{within};
ghost use Rattle.steps.specs.Calls.{length_ok, well_memory};

use state::answer::Refusal;
use state::memory::holds_state;

// 1,536 to 16,384 octets.
fn in_range(n: usize) -> bool
    ensures { result ≡ within 1536 n 16384 }
{
    (1536 <= n) & (n <= 16384)
}

// So many, and a multiple of 8.
pub fn length_ok(n: usize) -> bool
    ensures { result ≡ length_ok n }
{
    in_range(n) & (n % 8 == 0)
}

// Whether the memory is well: else every call but Start is refused with 5. Its length is asked first: asked behind the state, it would have to
// be kept over the survey of the channels, for which every call would save a register.
pub fn is_well(mem: &[u8]) -> bool
    ensures { result ≡ well_memory mem.now }
{
    if !length_ok(mem.len()) {
        return false;
    }
    holds_state(mem)
}

// Refused where the memory is damaged. Taken in where it is called, so that the refusal is no value there but a way of its own.
#[inline(always)]
pub fn checked(mem: &[u8]) -> Result<(), Refusal>
    ensures well { OnOk result (well_memory mem.now ≡ true) }
    ensures damaged { IfErr result (λ why. (why ≡ Damaged) × (well_memory mem.now ≡ false)) }
{
    if !is_well(mem) {
        return Err(Refusal::Damaged);
    }
    Ok(())
}
