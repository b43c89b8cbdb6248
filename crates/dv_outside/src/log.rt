//! What a shelf was asked and answered, and what a sink took, in order. A log takes no byte, and clauses alone read it.
ghost use Rattle.std.specs.Prelude.{◌≡◌, ℕ, List, [], ◌∷◌, ◌++◌};
ghost use Rattle.std.specs.Borrow.{ftrue};
ghost use Rattle.dv_outside.specs.Outside.{Answer, answered};

use crate::shelf::FetchError;
use std::marker::Model;

/// The answers of a shelf.
#[derive(Drop)]
pub struct FetchLog {
    pub ghost answers: { List Answer },
}

impl Model for FetchLog {
    ghost also_owns = { λ _. ftrue };
}

impl FetchLog {
    /// No answer yet.
    pub(crate) fn new() -> FetchLog
        ensures { result.answers ≡ [] }
    {
        FetchLog {}
    }

    /// One answer more.
    pub(crate) fn and(
        &self,
        _name: &[u8],
        _most: usize,
        _answer: &Result<Vec<u8>, FetchError>,
    ) -> FetchLog
        ensures { result.answers ≡ self.now.answers ++ (_name.now, _most, answered _answer.now) ∷ [] }
    {
        FetchLog {}
    }
}

/// The bytes that a sink took.
#[derive(Drop)]
pub struct ByteLog {
    pub ghost bytes: { List ℕ },
}

impl Model for ByteLog {
    ghost also_owns = { λ _. ftrue };
}

impl ByteLog {
    /// No byte yet.
    pub(crate) fn new() -> ByteLog
        ensures { result.bytes ≡ [] }
    {
        ByteLog {}
    }

    /// These bytes more.
    pub(crate) fn and(&self, _bytes: &[u8]) -> ByteLog
        ensures { result.bytes ≡ self.now.bytes ++ _bytes.now }
    {
        ByteLog {}
    }
}

const _: () = prove!(size_of::<FetchLog>() + size_of::<ByteLog>() == 0);
