//! Names in the order in which they came, found by a hash.
ghost use Rattle.std.specs.Prelude.{◌≡◌, ◌++◌, ◌∷◌, [], IfSome, IfNone, OnOk};
ghost use Rattle.csub_objects.specs.Names.{IsNew, StandsAt};

use indexmap::IndexSet;
use std::alloc::{AllocError, Global};
use std::marker::Model;

/// Names in the order in which they came, each once. Contracts see the list of the names.
pub struct NameSet {
    held: IndexSet<Vec<u8>>,
}

impl Drop for NameSet {
    fn drop(self) {
        let NameSet { held: _ } = self;
    }
}

impl Model for NameSet {
    ghost use Rattle.std.specs.Prelude.{ℕ, List, map};

    ghost Value = { List (List ℕ) };

    ghost view = { λ s. map (λ k. k.items) s.held.keys };
}

impl NameSet {
    /// No names.
    pub fn new(alloc: Global) -> NameSet
        ensures { result ≡ [] }
    {
        NameSet {
            held: IndexSet::new(alloc),
        }
    }

    /// The place of a name, found by its hash.
    pub fn find(&self, name: &[u8]) -> Option<usize>
        ensures some { IfSome result (StandsAt self.now name.now) }
        ensures none { IfNone result (IsNew name.now self.now) }
    {
        self.held.get_index_of(name)
    }

    /// Adds a name. An `Err` is want of memory.
    pub fn add(&mut self, name: Vec<u8>) -> Result<(), AllocError>
        requires { IsNew name.items self.old }
        ensures { OnOk result (self.new ≡ self.old ++ name.items ∷ []) }
    {
        self.held.insert_full(name)?;
        Ok(())
    }
}
