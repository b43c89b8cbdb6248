//! What a mark means to the reader of expressions.
use csub_text::{BinOp, StepOp, UnaryOp};

/// An operator between two operands (C11 6.5.5 to 6.5.14).
#[derive(Clone, Copy, Debug, PartialEq, Eq)]
pub enum Joint {
    /// From `*` to `|`.
    Binary(BinOp),
    /// `&&`
    And,
    /// `||`
    Or,
}

/// An operator before one operand (C11 6.5.3).
#[derive(Clone, Copy, Debug, PartialEq, Eq)]
pub enum Sign {
    /// `+`, `-`, `!` or `~`
    Unary(UnaryOp),
    /// `++` or `--`
    Step(StepOp),
}

/// What makes a postfix expression longer (C11 6.5.2).
#[derive(Clone, Copy, Debug, PartialEq, Eq)]
pub enum Tail {
    /// `[`
    Index,
    /// `.`
    Member,
    /// `++` or `--`
    Step(StepOp),
}
