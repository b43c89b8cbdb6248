//! Names and the types that declarations and casts begin with.
use csub_text::{Span, Text};

/// A name at its place (C11 6.4.2).
#[derive(Drop)]
pub struct Name {
    /// Its bytes.
    pub text: Text,
    /// Where it stands.
    pub span: Span,
}

/// A type as it is written (C11 6.7.2).
#[derive(Drop)]
pub enum TypeName {
    /// `void`, the result of a function that gives nothing
    Void,
    /// `char`
    Char,
    /// `int`
    Int,
    /// `unsigned` or `unsigned int`
    Unsigned,
    /// `struct` and a tag
    Struct(Name),
}
