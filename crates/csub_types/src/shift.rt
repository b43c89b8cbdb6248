//! `<<` and `>>`.
ghost use Rattle.std.specs.Prelude.{◌≡◌, ◌≤ℤ◌, pos, ◌*ℤ◌};
ghost use Rattle.csub_types.specs.Kinds.{IsOf, IsPromoted};
ghost use Rattle.csub_types.specs.Shifts.{is_count, power, shifted_left, shifted_right, IsOfEither};

use crate::kind::{IntKind, convert};
use crate::trap::Trap;

/// Whether a count of bits is one that a shift has: from 0 to 31.
fn is_count(count: i64) -> bool
    ensures { result ≡ is_count count }
{
    0 <= count && count <= 31
}

/// 2 to the power of a count.
fn power(count: i64) -> i64
    requires low { pos 0 ≤ℤ count }
    requires high { count ≤ℤ pos 31 }
    ensures value { result ≡ power count }
    ensures least { pos 1 ≤ℤ result }
    ensures most { result ≤ℤ pos 2147483648 }
{
    1i64 << count
}

/// A number times 2 to the power of a count.
fn scale(a: i64, count: i64) -> i64
    requires number { IsOfEither a }
    requires low { pos 0 ≤ℤ count }
    requires high { count ≤ℤ pos 31 }
    ensures { result ≡ a *ℤ power count }
{
    a * power(count)
}

/// A shift to the left by `count` bits.
pub(crate) fn shift_left(kind: IntKind, a: i64, count: i64) -> Result<i64, Trap>
    requires promoted { IsPromoted kind }
    requires left { IsOf kind a }
    ensures { result ≡ shifted_left kind a count }
{
    if !is_count(count) {
        return Err(Trap::Shift);
    }
    let shifted = scale(a, count);
    match kind {
        IntKind::Unsigned => Ok(convert(kind, shifted)),
        _ => {
            if 0 <= a && shifted < 2_147_483_648 {
                Ok(shifted)
            } else {
                Err(Trap::Shift)
            }
        }
    }
}

/// A shift to the right by `count` bits, which keeps the sign.
pub(crate) fn shift_right(a: i64, count: i64) -> Result<i64, Trap>
    requires { IsOfEither a }
    ensures { result ≡ shifted_right a count }
{
    if !is_count(count) {
        return Err(Trap::Shift);
    }
    Ok(a.div_euclid(power(count)))
}
