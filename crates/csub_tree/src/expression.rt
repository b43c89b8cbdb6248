//! Expressions (C11 6.5).
use crate::name::{Name, TypeName};
use csub_text::{BinOp, Span, StepOp, Text, UnaryOp};

/// An expression at its place, which runs from its first token to its last.
#[cycle(expression)]
#[derive(Drop)]
pub struct Expr {
    /// What it is.
    pub kind: ExprKind,
    /// Where it stands.
    pub span: Span,
}

/// What an expression is.
#[cycle(expression)]
#[derive(Drop)]
pub enum ExprKind {
    /// A number, and whether it has the suffix `u` (C11 6.4.4.1).
    Number(u32, bool),
    /// The byte of a character constant (C11 6.4.4.4).
    Char(u8),
    /// The bytes of a string (C11 6.4.5).
    Text(Text),
    /// An identifier (C11 6.5.1).
    Name(Name),
    /// An expression in parentheses (C11 6.5.1).
    Paren(Box<Expr>),
    /// `+e`, `-e`, `!e` or `~e` (C11 6.5.3.3).
    Unary(UnaryOp, Box<Expr>),
    /// `(type) e` (C11 6.5.4).
    Cast(TypeName, Box<Expr>),
    /// `++e`, `--e`, `e++` or `e--` (C11 6.5.2.4 and 6.5.3.1).
    Step(StepOp, Box<Expr>),
    /// Two operands of an operator from `*` to `|` (C11 6.5.5 to 6.5.12).
    Binary(BinOp, Box<Expr>, Box<Expr>),
    /// `a && b` (C11 6.5.13).
    And(Box<Expr>, Box<Expr>),
    /// `a || b` (C11 6.5.14).
    Or(Box<Expr>, Box<Expr>),
    /// `a ? b : c` (C11 6.5.15).
    Choose(Box<Expr>, Box<Expr>, Box<Expr>),
    /// `a = b`, or with an operator `a += b` and the like (C11 6.5.16).
    Assign(Option<BinOp>, Box<Expr>, Box<Expr>),
    /// A call of a function by its name (C11 6.5.2.2).
    Call(Name, Vec<Expr>),
    /// `a[i]` (C11 6.5.2.1).
    Index(Box<Expr>, Box<Expr>),
    /// `a.m` (C11 6.5.2.3).
    Member(Box<Expr>, Name),
}

/// Drops an expression. What holds one drops it here, since each place that drops one takes long to prove.
pub(crate) fn drop_expr(_: Expr) {}

/// Drops an expression, where there is one.
pub(crate) fn drop_perhaps(e: Option<Expr>) {
    match e {
        Some(e) => drop_expr(e),
        None => {}
    }
}
