//! A source of C cut into tokens, and the places of its bytes in lines and columns.
//!
//! What is promised stands in two contracts. [`lex`] answers exactly the tokens of a source, each with its span, or exactly the one
//! fault where the source can't be cut, with its kind and place; the only other answer is want of memory. The rules of the cut (C11
//! 6.4) are the definition `Piece` in `specs/Pieces.antt`, with `Tokens` and `Fault` over it in `specs/Tokens.antt`. [`line_column`]
//! gives exactly the line and the column of a place (`specs/Place.antt`).
#![tactic(auto)]

mod bytes;
mod cut;
mod error;
mod key;
mod line;
mod mark;
mod number;
mod pieces;
mod place;
mod quoted;
mod step;
pub mod token;

pub use csub_text::{BinOp, Span, StepOp, Text, UnaryOp};
pub use cut::lex;
pub use error::{LexError, LexKind};
pub use place::line_column;
pub use token::{Key, Mark, Token, TokenKind};
