//! Sums, differences and products of 64 bits.
//!
//! The static bounds of a theory's terms are small, and so are all numbers that an aggregate comes to. That is not
//! proved, so a number that leaves 64 bits counts as out of memory.
ghost use Rattle.std.specs.Prelude.{◌≡◌, ◌+ℤ◌, ◌-ℤ◌, ◌*ℤ◌, IfOk};

use ground_core::Memory;

pub(crate) fn sum(a: i64, b: i64) -> Result<i64, Memory>
    ensures { IfOk result (λ n. n ≡ a +ℤ b) }
{
    match a.checked_add(b) {
        Some(n) => Ok(n),
        None => Err(Memory),
    }
}

pub(crate) fn difference(a: i64, b: i64) -> Result<i64, Memory>
    ensures { IfOk result (λ n. n ≡ a -ℤ b) }
{
    match a.checked_sub(b) {
        Some(n) => Ok(n),
        None => Err(Memory),
    }
}

pub(crate) fn product(a: i64, b: i64) -> Result<i64, Memory>
    ensures { IfOk result (λ n. n ≡ a *ℤ b) }
{
    match a.checked_mul(b) {
        Some(n) => Ok(n),
        None => Err(Memory),
    }
}
