//! Shelves in memory, which tell their files.
ghost use Rattle.std.specs.Prelude.{◌≡◌, ◌↔◌, [], IsTrue, Contains};
ghost use Rattle.dv_outside.specs.Held.{files_of, NamesDiffer};
ghost use Rattle.dv_outside.specs.Outside.{AreOf};

use crate::held::beginning;
use crate::log::FetchLog;
use crate::shelf::{FetchError, Shelf, raise};
use std::alloc::Global;

/// Files in memory. A name that isn't held is the only fault.
#[derive(Drop)]
pub struct MemoryShelf {
    alloc: Global,
    files: Vec<(String, Vec<u8>)>,
    log: FetchLog,
    ghost agree: { AreOf (files_of files.items) log.answers },
}

impl MemoryShelf {
    ghost use Rattle.dv_outside.specs.MemoryShelf.{shelf_files, shelf_answers};

    /// A shelf of these files, by their names. [`names_differ`](crate::names_differ) tests the condition.
    pub fn new(alloc: Global, files: Vec<(String, Vec<u8>)>) -> MemoryShelf
        requires { NamesDiffer files.items }
        ensures files { shelf_files result ≡ files_of files.items }
        ensures answers { shelf_answers result ≡ [] }
    {
        MemoryShelf {
            alloc,
            files,
            log: FetchLog::new(),
        }
    }
}

impl Shelf for MemoryShelf {
    ghost use Rattle.std.specs.Prelude.{◌≡◌, ◌≤◌, ◌↔◌, Some, length, IfOk, IsErrOf, IsNone};
    ghost use Rattle.dv_outside.specs.Outside.{Rose, NeverFalls, IsFetched, Answers, answered, failures, file_at};
    ghost use Rattle.dv_outside.specs.MemoryShelf.{shelf_files, shelf_answers};

    ghost files = { λ shelf. Some (shelf_files shelf) };

    ghost answers = { shelf_answers };

    ghost faults = { λ shelf. failures (shelf_answers shelf) };

    fn fetch(&mut self, name: &str, most: usize) -> Result<Vec<u8>, FetchError>
        // as for every shelf
        ensures answers { Answers (shelf_answers self.old) (shelf_answers self.new) name.now most (answered result) }
        ensures bytes { IfOk result (λ bytes. IsFetched (Some (shelf_files self.old)) name.now most bytes.items) }
        ensures bound { IfOk result (λ bytes. length bytes.items ≤ most) }
        ensures cause { IsErrOf result FetchError.Failed → Rose (failures (shelf_answers self.old) name.now) (failures (shelf_answers self.new) name.now) }
        ensures counts { NeverFalls (failures (shelf_answers self.old)) (failures (shelf_answers self.new)) }
        ensures same { shelf_files self.new ≡ shelf_files self.old }

        // of this one
        ensures missing { IsErrOf result FetchError.Failed ↔ IsNone (file_at (shelf_files self.old) name.now) }
    {
        let answer = beginning(self.alloc, &self.files, name, most);
        self.log = self.log.and(name.as_bytes(), most, &answer);
        answer
    }

    ghost use Rattle.std.proofs.Common.{refl};
    ghost use Rattle.dv_outside.specs.Told.{held_told};

    ghost agree = { λ shelf. held_told (shelf_files shelf) (shelf_answers shelf) shelf.agree };

    ghost counted = { λ shelf name. refl };
}

/// Files in memory. A name that isn't held is a fault, and so is each call whose number was chosen.
///
/// The calls are counted from 1.
#[derive(Drop)]
pub struct FailingShelf {
    alloc: Global,
    files: Vec<(String, Vec<u8>)>,
    fail_at: Vec<u32>,
    calls: u64,
    log: FetchLog,
    ghost agree: { AreOf (files_of files.items) log.answers },
}

impl FailingShelf {
    ghost use Rattle.dv_outside.specs.FailingShelf.{shelf_files, shelf_answers, failing_calls, calls_made};

    /// A shelf of these files, whose calls with these numbers fail. Of two files with one name the first
    /// counts.
    pub fn new(alloc: Global, files: Vec<(String, Vec<u8>)>, fail_at: Vec<u32>) -> FailingShelf
        ensures files { shelf_files result ≡ files_of files.items }
        ensures answers { shelf_answers result ≡ [] }
        ensures fail_at { failing_calls result ≡ fail_at.items }
        ensures calls { calls_made result ≡ 0 }
    {
        FailingShelf {
            alloc,
            files,
            fail_at,
            calls: 0,
            log: FetchLog::new(),
        }
    }
}

impl Shelf for FailingShelf {
    ghost use Rattle.std.specs.Prelude.{◌≡◌, ◌≤◌, ◌↔◌, Some, length, IfOk, IsErrOf};
    ghost use Rattle.dv_outside.specs.Outside.{Rose, NeverFalls, IsFetched, Answers, answered, failures, raised};
    ghost use Rattle.dv_outside.specs.FailingShelf.{shelf_files, shelf_answers, failing_calls, calls_made, FailsNext};

    ghost files = { λ shelf. Some (shelf_files shelf) };

    ghost answers = { shelf_answers };

    ghost faults = { λ shelf. failures (shelf_answers shelf) };

    fn fetch(&mut self, name: &str, most: usize) -> Result<Vec<u8>, FetchError>
        // as for every shelf
        ensures answers { Answers (shelf_answers self.old) (shelf_answers self.new) name.now most (answered result) }
        ensures bytes { IfOk result (λ bytes. IsFetched (Some (shelf_files self.old)) name.now most bytes.items) }
        ensures bound { IfOk result (λ bytes. length bytes.items ≤ most) }
        ensures cause { IsErrOf result FetchError.Failed → Rose (failures (shelf_answers self.old) name.now) (failures (shelf_answers self.new) name.now) }
        ensures counts { NeverFalls (failures (shelf_answers self.old)) (failures (shelf_answers self.new)) }
        ensures same { shelf_files self.new ≡ shelf_files self.old }

        // of this one
        ensures fails { IsErrOf result FetchError.Failed ↔ FailsNext self.old name.now }
        ensures calls { calls_made self.new ≡ raised (calls_made self.old) }
        ensures fail_at { failing_calls self.new ≡ failing_calls self.old }
    {
        self.calls = raise(self.calls);
        let chosen = has_call(&self.fail_at, self.calls);
        let answer = if chosen {
            Err(FetchError::Failed)
        } else {
            beginning(self.alloc, &self.files, name, most)
        };
        self.log = self.log.and(name.as_bytes(), most, &answer);
        answer
    }

    ghost use Rattle.std.proofs.Common.{refl};
    ghost use Rattle.dv_outside.specs.Told.{held_told};

    ghost agree = { λ shelf. held_told (shelf_files shelf) (shelf_answers shelf) shelf.agree };

    ghost counted = { λ shelf name. refl };
}

/// Whether the call with that number was chosen.
fn has_call(chosen: &[u32], call: u64) -> bool
    ensures { IsTrue result ↔ Contains chosen.now call }
{
    chosen.iter().any(|number| u64::from(*number) == call)
}
