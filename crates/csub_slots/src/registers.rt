//! Results with a trap as its number: a number and such a trap come back in registers, where a `Trap` would take both
//! through memory.
ghost use Rattle.std.specs.Prelude.{◌≡◌};
ghost use Rattle.csub_slots.specs.Numbered.{trap_numbered, narrowed};

use crate::spot::Spot;
use csub_semantics::Trap;

/// A result, or the number of a trap.
pub type Numbered<T> = Result<T, u64>;

/// A trap's number.
#[inline(always)]
pub fn number_of(trap: Trap) -> u64
    ensures { trap_numbered result ≡ trap }
{
    match trap {
        Trap::Overflow => 0,
        Trap::Divide => 1,
        Trap::Shift => 2,
        Trap::Bounds => 3,
        Trap::Unset => 4,
        Trap::Flood => 5,
        Trap::Depth => 6,
        Trap::Missing => 7,
    }
}

/// The trap with a number.
fn trap_of(number: u64) -> Trap
    ensures { result ≡ trap_numbered number }
{
    match number {
        0 => Trap::Overflow,
        1 => Trap::Divide,
        2 => Trap::Shift,
        3 => Trap::Bounds,
        4 => Trap::Unset,
        5 => Trap::Flood,
        6 => Trap::Depth,
        _ => Trap::Missing,
    }
}

/// A number or a trap, with the trap as its number.
#[inline(always)]
pub fn widen(given: Result<i64, Trap>) -> Numbered<i64>
    ensures { narrowed result ≡ given }
{
    match given {
        Ok(value) => Ok(value),
        Err(trap) => Err(number_of(trap)),
    }
}

/// A number or the trap that has the number.
#[inline(always)]
pub fn narrow(given: Numbered<i64>) -> Result<i64, Trap>
    ensures { result ≡ narrowed given }
{
    match given {
        Ok(value) => Ok(value),
        Err(number) => Err(trap_of(number)),
    }
}

/// A spot or the trap that has the number.
pub fn narrow_spot(given: Numbered<Spot>) -> Result<Spot, Trap>
    ensures { result ≡ narrowed given }
{
    match given {
        Ok(spot) => Ok(spot),
        Err(number) => Err(trap_of(number)),
    }
}
