//! What is done at a point, and how control leaves it.
use crate::expression::{Owner, RArg, RExpr};
use csub_objects::{CType, Member};
use csub_text::Text;
use csub_types::IntKind;

/// What the end of a function asks for.
#[derive(Clone, Copy, Debug, PartialEq, Eq)]
pub enum EndRule {
    /// A `void` function: nothing.
    Nothing,
    /// A function with a result type: a returned value, else the trap `missing`.
    Value,
    /// `main`: 0 where nothing was returned (C11 5.1.2.2.3).
    Main,
    /// `#start`: the run ends with the low 8 bits of what `main` gave.
    Start,
}

/// A returned value and the function's result type, to which it is converted (C11 6.8.6.4).
#[derive(Drop)]
pub struct Answer {
    /// The function's result type.
    pub kind: IntKind,
    /// The returned expression.
    pub value: RExpr,
}

/// A user call.
pub struct CallLabel {
    /// The called function's name.
    pub callee: Text,
    /// Its parameters as it is defined.
    pub params: Vec<Member>,
    /// Its result type; `None` for a `void` function.
    pub result: Option<IntKind>,
    /// The arguments, in order.
    pub args: Vec<RArg>,
    /// The number of the temporary that takes the result, from 1, where there is a result.
    pub temp: Option<u32>,
}

impl Drop for CallLabel {
    fn drop(self) {
        let CallLabel {
            callee: _,
            params: _,
            result: _,
            args: _,
            temp: _,
        } = self;
    }
}

/// What an object is initialised with (C11 6.7.9).
#[cycle(initialisers)]
pub enum RInit {
    /// The initial value of a number, which is converted to the declared type.
    One(RExpr),
    /// What the first elements of an array, or the first members of a struct, are initialised with, in order; all others
    /// get 0 in their numbers (C11 6.7.9p17 and p21).
    List(Vec<RInit>),
}

impl Drop for RInit {
    fn drop(self) {
        match self {
            RInit::One(_) => {}
            RInit::List(_) => {}
        }
    }
}

/// What is done at a point.
pub enum Label {
    /// A function's entry: nothing.
    Entry,
    /// A function's exit.
    Exit(EndRule),
    /// An expression is evaluated for its effects.
    Eval(RExpr),
    /// An object with its declared type gets its initial contents.
    Init(Owner, CType, RInit),
    /// A test of an `if` or a loop.
    Branch(RExpr),
    /// The value of a `switch`, which decides its way out.
    Switch(RExpr),
    /// A `return`, with or without a value.
    Return(Option<Answer>),
    /// A `goto`: nothing; where it leads is no part of the label.
    Goto,
    /// `exit(e)`: the run ends with the low 8 bits of e (C11 7.22.4.4).
    Halt(RExpr),
    /// A user call.
    Call(CallLabel),
}

impl Drop for Label {
    fn drop(self) {
        match self {
            Label::Entry => {}
            Label::Exit(_) => {}
            Label::Eval(_) => {}
            Label::Init(_, _, _) => {}
            Label::Branch(_) => {}
            Label::Switch(_) => {}
            Label::Return(_) => {}
            Label::Goto => {}
            Label::Halt(_) => {}
            Label::Call(_) => {}
        }
    }
}

/// A way out of a point.
#[derive(Drop)]
pub enum ExitLabel {
    /// The only way out.
    Next,
    /// A test that isn't 0.
    True,
    /// A test that is 0.
    False,
    /// A case of a switch, by its value.
    Case(i64),
    /// The default of a switch, with all its case values, rising.
    Default(Vec<i64>),
}
