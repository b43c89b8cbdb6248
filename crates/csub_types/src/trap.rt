//! Why a run stops before its end.

/// Where C leaves the behaviour undefined, or a limit of this language is passed, a run stops with one of these.
///
/// `Overflow`, `Divide` and `Shift` are the traps of [`unary`](crate::arithmetic::unary) and
/// [`binary`](crate::arithmetic::binary); the others come from objects, calls and output.
#[derive(Clone, Copy, Debug, PartialEq, Eq)]
pub enum Trap {
    /// `+`, `-`, `*`, `/` or unary `-` on `int` with a result that `int` does not have (C11 6.5p5),
    /// or `%` where `/` has one (6.5.5p6).
    Overflow,
    /// `/` or `%` by 0 (C11 6.5.5p5).
    Divide,
    /// A count below 0 or above 31, or `<<` of a negative `int` or with a result above 2147483647 (C11 6.5.7p3 and p4).
    Shift,
    /// An index below 0 or not below the length (C11 6.5.6p8).
    Bounds,
    /// A local cell that is read before it was ever written in its frame (C11 6.3.2.1p2).
    Unset,
    /// An output byte past 16384, a limit of this language.
    Flood,
    /// A call where 256 frames stand, a limit of this language.
    Depth,
    /// The end of a function other than `main` that has a result type, without a returned value;
    /// C11 6.9.1p12 leaves only the use of that value undefined.
    Missing,
}
