//! Why no unit was read.

use thiserror::Error;

/// Why no unit was read.
#[derive(Clone, Copy, Debug, PartialEq, Eq, Error)]
pub enum ParseError {
    /// The place of the least token, counted from 0, at which no unit can go on, or the count of the tokens where they
    /// end too early.
    #[error("no unit goes on at token {0}")]
    Syntax(u32),
    /// Memory was wanted.
    #[error("memory was wanted")]
    Memory,
}
