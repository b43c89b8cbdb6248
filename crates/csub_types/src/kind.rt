//! Kinds of numbers, and how a number goes from one to another.
ghost use Rattle.std.specs.Prelude.{◌≡◌, ℤ};
ghost use Rattle.csub_types.specs.Kinds.{IsOf, IsPromoted, IsCongruent, convert, common, promote};

/// A kind of number (C11 6.2.5), in two's complement.
#[derive(Clone, Copy, Debug, PartialEq, Eq)]
pub enum IntKind {
    /// `char`, which has a sign here: -128 to 127.
    Char,
    /// `int`: -2147483648 to 2147483647.
    Int,
    /// `unsigned int`: 0 to 4294967295.
    Unsigned,
}

/// The kind that an operand alone gets: the integer promotions (C11 6.3.1.1p2).
#[inline(always)]
pub fn promote(kind: IntKind) -> IntKind
    ensures value { result ≡ promote kind }
    ensures promoted { IsPromoted result }
    ensures keeps { (z : ℤ) → IsOf kind z → IsOf result z }
{
    match kind {
        IntKind::Char | IntKind::Int => IntKind::Int,
        IntKind::Unsigned => IntKind::Unsigned,
    }
}

/// The kind in which two operands are joined: the usual arithmetic conversions (C11 6.3.1.8p1).
pub fn common(a: IntKind, b: IntKind) -> IntKind
    ensures value { result ≡ common a b }
    ensures promoted { IsPromoted result }
{
    match (a, b) {
        (IntKind::Unsigned, _) | (_, IntKind::Unsigned) => IntKind::Unsigned,
        _ => IntKind::Int,
    }
}

/// The number of the kind that has the same low bits as `a`, which is any number (C11 6.3.1.3).
#[inline(always)]
pub fn convert(kind: IntKind, a: i64) -> i64
    ensures value { result ≡ convert kind a }
    ensures of_kind { IsOf kind result }
    ensures congruent { IsCongruent kind a result }
    ensures only { (z : ℤ) → IsOf kind z → IsCongruent kind a z → z ≡ result }
    ensures same { IsOf kind a → result ≡ a }
{
    match kind {
        IntKind::Char => i64::from((a.rem_euclid(256) as u8).cast_signed()),
        IntKind::Int => i64::from((a.rem_euclid(4_294_967_296) as u32).cast_signed()),
        IntKind::Unsigned => a.rem_euclid(4_294_967_296),
    }
}
