// The watchdog that Set_Prm asks for.
ghost use Rattle.std.specs.Prelude.{◌≡◌, ◌&&◌};
ghost use Rattle.rules.specs.Watchdog.{wants_watchdog, bad_factors, fast_base, ticks_by, ticks_of};

use crate::bits::bit;
use crate::request::Prm;

// Bit 3 set with octet 1 or 2 zero or both 1.
pub fn bad_watchdog(p: Prm) -> bool
    ensures { result ≡ (wants_watchdog p && bad_factors p) }
{
    bit(p.status, 3) & ((p.factor1 == 0) | (p.factor2 == 0) | ((p.factor1 == 1) & (p.factor2 == 1)))
}

// A base of 1 ms: octet 7 is there, with bit 2 set.
fn fast_base(count: u8, p: Prm) -> bool
    ensures { result ≡ fast_base count p }
{
    (8 <= count) & bit(p.base, 2)
}

// 1 or 10 times the product of the factors, at most 650,250.
fn ticks_by(fast: bool, factor1: u8, factor2: u8) -> u32
    ensures { result ≡ ticks_by fast factor1 factor2 }
{
    let product = u32::from(factor1) * u32::from(factor2);
    if fast {
        return product;
    }
    10 * product
}

// With bit 3 of octet 0 the watchdog has so many ticks, otherwise it is off.
pub fn ticks_of(count: u8, p: Prm) -> u32
    ensures { result ≡ ticks_of count p }
{
    if bit(p.status, 3) {
        return ticks_by(fast_base(count, p), p.factor1, p.factor2);
    }
    0
}
