//! Kinds of numbers as they are written, and of casts.
ghost use Rattle.std.specs.Prelude.{◌≡◌};
ghost use Rattle.csub_rules.specs.ExprSorts.{named_kind, number_literal_kind};

use csub_tree::TypeName;
use csub_types::IntKind;

/// The kind of a number as it is written (C11 6.4.4.1p5).
pub fn number_literal_kind(number: u32, suffix: bool) -> IntKind
    ensures { result ≡ number_literal_kind number suffix }
{
    if suffix || number > 2_147_483_647 {
        IntKind::Unsigned
    } else {
        IntKind::Int
    }
}

/// The kind that a cast names (C11 6.5.4p2).
pub fn named_kind(name: &TypeName) -> IntKind
    ensures { result ≡ named_kind name.now }
{
    match name {
        TypeName::Void => IntKind::Int,
        TypeName::Char => IntKind::Char,
        TypeName::Int => IntKind::Int,
        TypeName::Unsigned => IntKind::Unsigned,
        TypeName::Struct(_) => IntKind::Int,
    }
}
