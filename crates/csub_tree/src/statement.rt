//! Statements (C11 6.8).
use crate::declaration::Declare;
use crate::expression::{Expr, drop_expr, drop_perhaps};
use crate::name::Name;
use csub_text::Span;

/// A line of a block, at its place, which runs from its first token to its last.
#[cycle(statement)]
pub struct Stmt {
    /// What it is.
    pub kind: StmtKind,
    /// Where it stands.
    pub span: Span,
}

impl Drop for Stmt {
    #[cycle(drop)]
    fn drop(self) {
        let Stmt { kind: _, span: _ } = self;
    }
}

/// What a line of a block is.
#[cycle(statement)]
pub enum StmtKind {
    /// A declaration (C11 6.7).
    Declare(Declare),
    /// An expression and a semicolon (C11 6.8.3).
    Eval(Expr),
    /// A semicolon alone (C11 6.8.3).
    Empty,
    /// Lines in braces (C11 6.8.2).
    Block(Vec<Stmt>),
    /// `if`, with or without `else` (C11 6.8.4.1).
    If(Expr, Box<Stmt>, Option<Box<Stmt>>),
    /// `while` (C11 6.8.5.1).
    While(Expr, Box<Stmt>),
    /// `do` (C11 6.8.5.2).
    Do(Box<Stmt>, Expr),
    /// `for` (C11 6.8.5.3): the first part, which is an expression statement or a declaration, the condition, the third
    /// part and the body.
    For(Option<Box<Stmt>>, Option<Expr>, Option<Expr>, Box<Stmt>),
    /// `switch` and the lines of its block (C11 6.8.4.2).
    Switch(Expr, Vec<Stmt>),
    /// A case label, a line of its own in the block of a `switch` (C11 6.8.1).
    Case(Expr),
    /// `default`, a line of its own in the block of a `switch` (C11 6.8.1).
    Default,
    /// `break` (C11 6.8.6.3).
    Break,
    /// `continue` (C11 6.8.6.2).
    Continue,
    /// `goto` (C11 6.8.6.1).
    Goto(Name),
    /// A label and its statement (C11 6.8.1).
    Label(Name, Box<Stmt>),
    /// `return` (C11 6.8.6.4).
    Return(Option<Expr>),
}

impl Drop for StmtKind {
    #[cycle(drop)]
    fn drop(self) {
        match self {
            StmtKind::Declare(_) => {}
            StmtKind::Eval(e) => drop_expr(e),
            StmtKind::Empty => {}
            StmtKind::Block(_) => {}
            StmtKind::If(test, _, _) => drop_expr(test),
            StmtKind::While(test, _) => drop_expr(test),
            StmtKind::Do(_, test) => drop_expr(test),
            StmtKind::For(_, test, step, _) => {
                drop_perhaps(test);
                drop_perhaps(step);
            }
            StmtKind::Switch(e, _) => drop_expr(e),
            StmtKind::Case(e) => drop_expr(e),
            StmtKind::Default => {}
            StmtKind::Break => {}
            StmtKind::Continue => {}
            StmtKind::Goto(_) => {}
            StmtKind::Label(_, _) => {}
            StmtKind::Return(e) => drop_perhaps(e),
        }
    }
}
