//! Why a part of the descent stopped.
ghost use Rattle.std.specs.Prelude.{◌≡◌};
ghost use Rattle.csub_expr.specs.declared.stop.Stop.TheVariants.{Memory};

use std::alloc::{AllocError, AllocFailed};
use thiserror::Error;

/// Why no tree was read.
#[derive(Debug, Drop, Error)]
pub enum Stop {
    /// Memory was wanted.
    #[error("memory was wanted")]
    Memory,
    /// A token was refused where so many tokens were left, itself counted.
    #[error("a token was refused where {0} were left")]
    At(usize),
}

impl From<AllocError> for Stop {
    ghost from_gives = { λ _ e. e ≡ Memory };

    fn from(_e: AllocError) -> Stop {
        Stop::Memory
    }
}

impl<T: Drop> From<AllocFailed<T>> for Stop {
    ghost from_gives = { λ _ e. e ≡ Memory };

    fn from(_e: AllocFailed<T>) -> Stop {
        Stop::Memory
    }
}
