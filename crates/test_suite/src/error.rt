//! Why a suite is refused.
use std::alloc::AllocError;
use thiserror::Error;

/// Why a text is no suite, or that memory ran out. Where several hold, the first is answered.
#[derive(Clone, Copy, Debug, PartialEq, Eq, Error)]
pub enum SuiteError {
    /// The text has more than 16,777,216 bytes: so many.
    #[error("{0} bytes are too many")]
    TooLong(usize),
    /// The first line that breaks a rule of its place, counted from 1, and the least such rule, 1 to 7.
    #[error("line {0} breaks rule S{1}")]
    Line(u32, u8),
    /// There are more than 8,192 tests: so many.
    #[error("{0} tests are too many")]
    TooMany(u32),
    /// The first line whose name stood on an earlier line, counted from 1.
    #[error("line {0} has the name of an earlier line")]
    Twice(u32),
    /// Memory ran out.
    #[error("out of memory")]
    Memory,
}

impl From<AllocError> for SuiteError {
    ghost use Rattle.std.specs.Prelude.{◌≡◌};
    ghost use Rattle.test_suite.specs.declared.error.SuiteError.TheVariants.{Memory};

    ghost from_gives = { λ _ error. error ≡ Memory };

    fn from(_error: AllocError) -> SuiteError {
        SuiteError::Memory
    }
}
