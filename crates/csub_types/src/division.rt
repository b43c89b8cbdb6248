//! `/` and `%`.
ghost use Rattle.std.specs.Prelude.{◌≡◌, IfOk};
ghost use Rattle.std.specs.Int.RustNames.{int_div, int_rem};
ghost use Rattle.csub_types.specs.Kinds.{IsOf, IsPromoted};
ghost use Rattle.csub_types.specs.Division.{quotient, remainder, DividesTo};

use crate::kind::IntKind;
use crate::settle::settle;
use crate::trap::Trap;

/// The quotient, cut toward 0. That it and the remainder obey C's law of the two is `law`.
pub(crate) fn divide(kind: IntKind, a: i64, b: i64) -> Result<i64, Trap>
    requires promoted { IsPromoted kind }
    requires left { IsOf kind a }
    requires right { IsOf kind b }
    ensures value { result ≡ quotient kind a b }
    ensures law { IfOk result (λ q. DividesTo a b q (int_rem a b)) }
{
    if b == 0 {
        Err(Trap::Divide)
    } else {
        settle(kind, a / b)
    }
}

/// What the quotient leaves of `a`, with the quotient's traps.
pub(crate) fn remain(kind: IntKind, a: i64, b: i64) -> Result<i64, Trap>
    requires promoted { IsPromoted kind }
    requires left { IsOf kind a }
    requires right { IsOf kind b }
    ensures value { result ≡ remainder kind a b }
    ensures law { IfOk result (λ r. DividesTo a b (int_div a b) r) }
{
    if b == 0 {
        return Err(Trap::Divide);
    }
    settle(kind, a / b)?;
    Ok(a % b)
}
