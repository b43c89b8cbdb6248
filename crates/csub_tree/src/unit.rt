//! Translation units (C11 6.9).
use crate::declaration::{Declare, Head};
use crate::expression::{Expr, drop_perhaps};
use crate::name::Name;
use crate::statement::Stmt;
use csub_text::Span;

/// A source as a whole (C11 6.9).
pub struct Unit {
    /// Its items in order.
    pub items: Vec<Item>,
}

impl Drop for Unit {
    fn drop(self) {
        let Unit { items: _ } = self;
    }
}

/// What stands outside of every function (C11 6.9).
pub enum Item {
    /// A struct and its members (C11 6.7.2.1).
    Struct(Name, Vec<Declare>),
    /// An enumeration, with or without a tag (C11 6.7.2.2).
    Enum(Option<Name>, Vec<Constant>),
    /// Objects of file scope (C11 6.9.2).
    Object(Declare),
    /// A function that is declared (C11 6.7.6.3).
    Prototype(Head),
    /// A function that is defined, the lines of its body, and the place of the whole definition, from the first token
    /// of its type to the closing brace (C11 6.9.1).
    Function(Head, Vec<Stmt>, Span),
}

impl Drop for Item {
    fn drop(self) {
        match self {
            Item::Struct(_, _) => {}
            Item::Enum(_, _) => {}
            Item::Object(_) => {}
            Item::Prototype(_) => {}
            Item::Function(_, _, _) => {}
        }
    }
}

/// A constant of an enumeration (C11 6.7.2.2).
pub struct Constant {
    /// Its name.
    pub name: Name,
    /// Its value, where it is given.
    pub value: Option<Expr>,
}

impl Drop for Constant {
    fn drop(self) {
        let Constant { name: _, value } = self;
        drop_perhaps(value);
    }
}
