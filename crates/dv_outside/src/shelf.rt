//! A place that files are read from.
ghost use Rattle.std.specs.Prelude.{◌≡◌, ◌≤◌, List, ℕ, length, Option, IfOk, IsErrOf};
ghost use Rattle.dv_outside.specs.Outside.{Files, Answer, Rose, NeverFalls, IsFetched, Answers, AreTold, answered, failures, raised};

use thiserror::Error;

/// Why a file wasn't fetched.
#[derive(Clone, Copy, Debug, PartialEq, Eq, Error)]
pub enum FetchError {
    /// A fault of the shelf, which it has counted. A missing file is one.
    #[error("the file can't be read")]
    Failed,
    /// There was no memory for the bytes.
    #[error("out of memory")]
    Memory,
}

/// A place that files are read from, by their names. It keeps what it was asked and answered: a log that clauses alone read.
pub trait Shelf {
    /// The files, where they are told.
    ghost files: { Self → Option Files };

    /// What each fetch was asked and answered, in order, whether or not the files are told.
    ghost answers: { Self → List Answer };

    /// For each name, how often a fetch of it failed.
    ghost faults: { Self → List ℕ → ℕ };

    /// The first `most` bytes of the file, or all of it if it is shorter. A missing file is a fault.
    ///
    /// `Failed` comes only where the count of faults of this very name rose, `Memory` for want of memory.
    /// The files stay as they are.
    fn fetch(&mut self, name: &str, most: usize) -> Result<Vec<u8>, FetchError>
        ensures answers { Answers (answers self.old) (answers self.new) name.now most (answered result) }
        ensures bytes { IfOk result (λ bytes. IsFetched (files self.old) name.now most bytes.items) }
        ensures bound { IfOk result (λ bytes. length bytes.items ≤ most) }
        ensures cause { IsErrOf result FetchError.Failed → Rose (faults self.old name.now) (faults self.new name.now) }
        ensures counts { NeverFalls (faults self.old) (faults self.new) }
        ensures same { files self.new ≡ files self.old };

    /// Where the files are told, what was answered is of them.
    ghost agree: { (shelf : Self) → AreTold (files shelf) (answers shelf) };

    /// The counts of faults are those of the answers.
    ghost counted: { (shelf : Self) (name : List ℕ) → faults shelf name ≡ failures (answers shelf) name };
}

/// A count after one more. It stays at its greatest value.
pub(crate) fn raise(count: u64) -> u64
    ensures { result ≡ raised count }
{
    count.saturating_add(1)
}
