//! What becomes of an exact result.
ghost use Rattle.std.specs.Prelude.{◌≡◌};
ghost use Rattle.csub_types.specs.Settled.{settled};

use crate::kind::{IntKind, convert};
use crate::trap::Trap;

/// An exact result: it wraps where the kind is `Unsigned`, and else it is a number of `int` or an overflow.
#[inline(always)]
pub(crate) fn settle(kind: IntKind, exact: i64) -> Result<i64, Trap>
    ensures { result ≡ settled kind exact }
{
    match kind {
        IntKind::Unsigned => Ok(convert(kind, exact)),
        _ => {
            if -2_147_483_648 <= exact && exact < 2_147_483_648 {
                Ok(exact)
            } else {
                Err(Trap::Overflow)
            }
        }
    }
}
