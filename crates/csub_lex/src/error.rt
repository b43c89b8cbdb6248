//! Why a source is not cut into tokens.
use thiserror::Error;

/// What is missing at a place where no token, blank, comment or include line begins.
#[derive(Clone, Copy, Debug, PartialEq, Eq)]
pub enum LexKind {
    /// Any of them.
    Byte,
    /// A number: a digit stands there.
    Number,
    /// An include line: a `#` stands there.
    Directive,
}

/// Why a source has no tokens, with the first place, counted in bytes from 0, at which no token, blank, comment or include line
/// begins; or that memory ran out.
#[derive(Clone, Copy, Debug, PartialEq, Eq, Error)]
pub enum LexError {
    /// A byte that nothing begins with, the opening of a comment that is not closed, or the opening quote of a constant or string that
    /// is not well formed.
    #[error("no token begins at byte {0}")]
    Byte(u32),
    /// The letters, digits and `_` there are no number, or one that is too large.
    #[error("no number begins at byte {0}")]
    Number(u32),
    /// The `#` there begins no include line.
    #[error("no include line begins at byte {0}")]
    Directive(u32),
    /// Memory ran out.
    #[error("out of memory")]
    Memory,
}
