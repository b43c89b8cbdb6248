//! Why a source isn't accepted, and why a unit has no program.
use csub_lex::LexKind;
use csub_text::Span;
use thiserror::Error;

/// Why a source isn't accepted.
#[derive(Clone, Copy, Debug, PartialEq, Eq, Error)]
pub enum SourceError {
    /// It has more than 1,048,576 bytes: so many.
    #[error("{0} bytes are too many")]
    TooLong(usize),
    /// What is missing at a byte where no token, blank, comment or include line begins.
    #[error("the source is not cut into tokens")]
    Lex(LexKind, Span),
    /// The place of the least token at which no unit can go on; the empty place at the end where the tokens end too early.
    #[error("the tokens spell no unit")]
    Syntax(Span),
    /// A rule of the language by its number, and the place where it is broken first.
    #[error("rule M{0} is broken")]
    Meaning(u8, Span),
    /// A limit by its number, from 1: `functions`, `points`, `edges`, `frame`, `globals`, `arguments`, `printf`; and the count
    /// that passes it.
    #[error("limit {0} is passed by {1}")]
    Limit(u8, u64),
    /// Memory was wanted.
    #[error("memory was wanted")]
    Memory,
}

/// Why a unit has no program.
#[derive(Clone, Copy, Debug, PartialEq, Eq, Error)]
pub enum ResolveError {
    /// A rule of the language by its number, and the place where it is broken first.
    #[error("rule M{0} is broken")]
    Meaning(u8, Span),
    /// A limit by its number, from 1: `functions`, `points`, `edges`, `frame`, `globals`, `arguments`, `printf`; and the count
    /// that passes it.
    #[error("limit {0} is passed by {1}")]
    Limit(u8, u64),
    /// Memory was wanted.
    #[error("memory was wanted")]
    Memory,
}
