//! One piece of a source.
use crate::error::LexKind;
use crate::token::TokenKind;

/// What the next bytes of a source are, and how many of them.
#[derive(Drop)]
pub enum Step {
    /// A blank, a comment or an include line of so many bytes.
    Skip(usize),
    /// A token of so many bytes.
    Token(TokenKind, usize),
    /// No piece of a source.
    Stuck(LexKind),
}
