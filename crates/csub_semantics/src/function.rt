//! Resolved functions: their statements, each by its parts.
use crate::label::{CallLabel, Label};
use csub_objects::{CType, Member};
use csub_text::{Span, Text};
use csub_types::IntKind;

/// A user call of a part, with the place of the callee's name.
#[derive(Drop)]
pub struct RCall {
    /// The call.
    pub label: CallLabel,
    /// Where the callee's name stands.
    pub span: Span,
}

/// A part of a statement: an expression. Its calls are made first, in order, and then its own point is evaluated.
pub struct RPart {
    /// The user calls, innermost and leftmost first.
    pub calls: Vec<RCall>,
    /// The part's own point; none where the whole part is a user call.
    pub main: Option<Label>,
    /// The place that is named for the own point; where there is none, the first token of the part's expression.
    pub span: Span,
}

impl Drop for RPart {
    fn drop(self) {
        let RPart {
            calls: _,
            main: _,
            span: _,
        } = self;
    }
}

/// A statement.
pub enum RStmt {
    /// A statement without statements inside it, by its parts in order; none for an empty statement.
    Parts(Vec<RPart>),
    /// A block, by its lines.
    Block(Vec<RStmt>),
    /// An `if`: the test, the statement for a true test, and the one behind `else`.
    If(RPart, Box<RStmt>, Option<Box<RStmt>>),
    /// A `while`: the test and the body (C11 6.8.5.1).
    While(RPart, Box<RStmt>),
    /// A `do`: the body and the test (C11 6.8.5.2).
    Do(Box<RStmt>, RPart),
    /// A `for` (C11 6.8.5.3): the parts of its first expression or declaration, the test, the parts of its third
    /// expression, and the body.
    For(Vec<RPart>, RPart, Vec<RPart>, Box<RStmt>),
    /// A `switch` (C11 6.8.4.2): its expression, and its lines.
    Switch(RPart, Vec<RStmt>),
    /// A line `case v:` of a `switch`.
    Case(i64),
    /// A line `default:` of a `switch`.
    Default,
    /// A `break`.
    Break,
    /// A `continue`.
    Continue,
    /// A `goto` (C11 6.8.6.1): the label's name, and the part of its point.
    Goto(Text, RPart),
    /// A labelled statement (C11 6.8.1): the label's name, and the statement.
    Mark(Text, Box<RStmt>),
}

impl Drop for RStmt {
    fn drop(self) {
        match self {
            RStmt::Parts(_) => {}
            RStmt::Block(_) => {}
            RStmt::If(_, _, _) => {}
            RStmt::While(_, _) => {}
            RStmt::Do(_, _) => {}
            RStmt::For(_, _, _, _) => {}
            RStmt::Switch(_, _) => {}
            RStmt::Case(_) => {}
            RStmt::Default => {}
            RStmt::Break => {}
            RStmt::Continue => {}
            RStmt::Goto(_, _) => {}
            RStmt::Mark(_, _) => {}
        }
    }
}

/// A local object that is no parameter.
pub struct LocalVar {
    /// The declared name.
    pub name: Text,
    /// The object is the number-th of its name in its function, parameters counted first, from 1.
    pub number: u32,
    /// The declared type.
    pub ctype: CType,
}

impl Drop for LocalVar {
    fn drop(self) {
        let LocalVar {
            name: _,
            number: _,
            ctype: _,
        } = self;
    }
}

/// A function definition.
pub struct Function {
    /// The function's name.
    pub name: Text,
    /// Its parameters.
    pub params: Vec<Member>,
    /// Its result type; `None` for a `void` function.
    pub result: Option<IntKind>,
    /// The lines of its body.
    pub body: Vec<RStmt>,
    /// Where its name stands in its definition.
    pub span: Span,
    /// Its local objects other than its parameters, in the order of the source.
    pub locals: Vec<LocalVar>,
    /// The most temporaries of one of its parts.
    pub temps: u32,
}

impl Drop for Function {
    fn drop(self) {
        let Function {
            name: _,
            params: _,
            result: _,
            body: _,
            span: _,
            locals: _,
            temps: _,
        } = self;
    }
}
