//! How an expression stands.
ghost use Rattle.std.specs.Prelude.{◌≡◌};
ghost use Rattle.csub_rules.specs.ExprFaults.{below, is_whole, is_later};
ghost use Rattle.csub_check.specs.Seen.{the_standing};

/// How an expression stands.
#[derive(Clone, Copy, Debug, PartialEq, Eq)]
pub enum Standing {
    /// As a whole expression statement (C11 6.8.3).
    Whole,
    /// As an operand.
    Operand,
    /// Within the right operand of `&&` or `||` or a later operand of `?:`.
    Later,
}

/// How the operands of an expression stand.
pub(crate) fn below(standing: Standing) -> Standing
    ensures { the_standing result ≡ below (the_standing standing) }
{
    match standing {
        Standing::Whole | Standing::Operand => Standing::Operand,
        Standing::Later => Standing::Later,
    }
}

/// Whether it is a whole statement.
pub(crate) fn is_whole(standing: Standing) -> bool
    ensures { result ≡ is_whole (the_standing standing) }
{
    match standing {
        Standing::Whole => true,
        Standing::Operand | Standing::Later => false,
    }
}

/// Whether it is a later operand.
pub(crate) fn is_later(standing: Standing) -> bool
    ensures { result ≡ is_later (the_standing standing) }
{
    match standing {
        Standing::Later => true,
        Standing::Whole | Standing::Operand => false,
    }
}
