//! Why a history is not written, and why a text is not read.
use std::alloc::AllocError;
use thiserror::Error;

/// Why a history has no text, or that memory ran out.
#[derive(Clone, Copy, Debug, PartialEq, Eq, Error)]
pub enum HistoryTextError {
    /// The text would have more than 134,217,728 bytes: so many.
    #[error("{0} bytes are too many")]
    TooLong(u64),
    /// Memory ran out.
    #[error("out of memory")]
    Memory,
}

impl From<AllocError> for HistoryTextError {
    ghost use Rattle.std.specs.Prelude.{◌≡◌};
    ghost use Rattle.test_history.specs.declared.error.HistoryTextError.TheVariants.{Memory};

    ghost from_gives = { λ _ error. error ≡ Memory };

    fn from(_error: AllocError) -> HistoryTextError {
        HistoryTextError::Memory
    }
}

/// Why a text is no history of a source with so many edges, or that memory ran out. Where several hold,
/// the first is answered.
#[derive(Clone, Copy, Debug, PartialEq, Eq, Error)]
pub enum HistoryError {
    /// The text has more than 134,217,728 bytes: so many.
    #[error("{0} bytes are too many")]
    TooLong(usize),
    /// The text is of another version of the format than the one that is read.
    #[error("version {0} is another")]
    Version(u32),
    /// The first line that breaks a rule of its place, counted from 1, and the least such rule, 1 to 14.
    #[error("line {0} breaks rule H{1}")]
    Malformed(u32, u8),
    /// The digest on the line `end`, and the other one that the bytes before that line have.
    #[error("the sum is {0:?}, and that of the text {1:?}")]
    Sum([u8; 32], [u8; 32]),
    /// The digest of the source that the history tells, and the other one of the source at hand.
    #[error("the source has the digest {0:?}, and this one {1:?}")]
    Foreign([u8; 32], [u8; 32]),
    /// The number of edges that the history tells, and the other one at hand.
    #[error("{0} edges, and not {1}")]
    EdgeCount(u32, u32),
    /// Memory ran out.
    #[error("out of memory")]
    Memory,
}

impl From<AllocError> for HistoryError {
    ghost use Rattle.std.specs.Prelude.{◌≡◌};
    ghost use Rattle.test_history.specs.declared.error.HistoryError.TheVariants.{Memory};

    ghost from_gives = { λ _ error. error ≡ Memory };

    fn from(_error: AllocError) -> HistoryError {
        HistoryError::Memory
    }
}
