//! Declarations and initialisers (C11 6.7).
use crate::expression::{Expr, drop_expr, drop_perhaps};
use crate::name::{Name, TypeName};
use csub_text::Span;

/// An initialiser (C11 6.7.9).
#[cycle(initialiser)]
pub enum Init {
    /// An expression.
    One(Expr),
    /// A list in braces; the place runs from the opening brace to the closing one.
    List(Vec<Init>, Span),
}

impl Drop for Init {
    fn drop(self) {
        match self {
            Init::One(e) => drop_expr(e),
            Init::List(_, _) => {}
        }
    }
}

/// A declaration of objects, or of members of a struct (C11 6.7).
pub struct Declare {
    /// The type that it begins with.
    pub base: TypeName,
    /// What it declares, at least one.
    pub vars: Vec<Declarator>,
    /// From the first token of the type to the semicolon.
    pub span: Span,
}

impl Drop for Declare {
    fn drop(self) {
        let Declare {
            base: _,
            vars: _,
            span: _,
        } = self;
    }
}

/// A declared name (C11 6.7.6).
pub struct Declarator {
    /// The name.
    pub name: Name,
    /// The lengths of an array, outermost first; none for no array.
    pub dims: Vec<Expr>,
    /// Its initialiser.
    pub init: Option<Init>,
}

impl Drop for Declarator {
    fn drop(self) {
        let Declarator {
            name: _,
            dims: _,
            init: _,
        } = self;
    }
}

/// What a prototype or a definition of a function begins with (C11 6.7.6.3).
pub struct Head {
    /// The type of its result.
    pub result: TypeName,
    /// The function's name.
    pub name: Name,
    /// Its parameters; none where the list is empty or `void`.
    pub params: Vec<Param>,
}

impl Drop for Head {
    fn drop(self) {
        let Head {
            result: _,
            name: _,
            params: _,
        } = self;
    }
}

/// A parameter (C11 6.7.6.3).
pub struct Param {
    /// The type that it begins with.
    pub base: TypeName,
    /// Its name, which a prototype may leave out.
    pub name: Option<Name>,
    /// Whether it has brackets, which make it a parameter for an array.
    pub array: bool,
    /// The length in the brackets.
    pub length: Option<Expr>,
    /// From the first token of the type to the last of the parameter.
    pub span: Span,
}

impl Drop for Param {
    fn drop(self) {
        let Param {
            base: _,
            name: _,
            array: _,
            length,
            span: _,
        } = self;
        drop_perhaps(length);
    }
}
