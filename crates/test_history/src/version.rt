//! The versions of the format.
ghost use Rattle.std.specs.Prelude.{◌≡◌};
ghost use Rattle.test_history.specs.HistoryTexts.{version_number};

/// A version of the format that is read.
#[derive(Clone, Copy)]
pub enum Version {
    /// Version 2, in which the numbers of the crossed edges are listed.
    Second,
    /// Version 3, in which the crossed edges are bits of bytes.
    Third,
}

impl Version {
    /// Its number, which stands on line 1.
    pub fn number(self) -> u64
        ensures { result ≡ version_number self }
    {
        match self {
            Version::Second => 2,
            Version::Third => 3,
        }
    }
}
