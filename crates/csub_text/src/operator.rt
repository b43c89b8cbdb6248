//! The operators of C11 6.5 that have a tree of their own, other than `&&`, `||`, `?:` and assignments.

/// An operator before one operand (C11 6.5.3.3): `+`, `-`, `!`, `~`.
#[derive(Clone, Copy, Debug, PartialEq, Eq)]
pub enum UnaryOp {
    /// `+`
    Plus,
    /// `-`
    Minus,
    /// `!`
    Not,
    /// `~`
    Flip,
}

/// A step of an object by one, with the value before or after it (C11 6.5.2.4 and 6.5.3.1).
#[derive(Clone, Copy, Debug, PartialEq, Eq)]
pub enum StepOp {
    /// `++` before its operand
    PreUp,
    /// `--` before its operand
    PreDown,
    /// `++` behind its operand
    PostUp,
    /// `--` behind its operand
    PostDown,
}

/// An operator between two operands (C11 6.5.5 to 6.5.12), from the tightest level to the loosest.
#[derive(Clone, Copy, Debug, PartialEq, Eq)]
pub enum BinOp {
    /// `*`
    Mul,
    /// `/`
    Div,
    /// `%`
    Rem,
    /// `+`
    Add,
    /// `-`
    Sub,
    /// `<<`
    Shl,
    /// `>>`
    Shr,
    /// `<`
    Lt,
    /// `>`
    Gt,
    /// `<=`
    Le,
    /// `>=`
    Ge,
    /// `==`
    Eq,
    /// `!=`
    Ne,
    /// `&`
    BitAnd,
    /// `^`
    BitXor,
    /// `|`
    BitOr,
}
