//! Why a text can't be read.
use std::alloc::AllocError;

/// Why a text can't be read.
#[derive(Clone, Copy, Debug, PartialEq, Eq)]
pub enum Unread {
    /// A word is none of those that there are, or a field of it isn't what it has to be.
    Word,
    /// Behind a word its operands don't stand, or words are left that are no operands.
    Operand,
    /// Memory was wanted.
    Memory,
}

impl From<AllocError> for Unread {
    fn from(_: AllocError) -> Unread {
        Unread::Memory
    }
}
