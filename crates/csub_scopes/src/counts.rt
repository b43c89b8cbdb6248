//! How often a name came.
ghost use Rattle.std.specs.Prelude.{◌≡◌, ◌∷◌, [], OnOk, OnErr, bytes_eq, count_by};

use crate::places::{place_of, put};
use csub_text::Text;
use indexmap::IndexMap;
use std::alloc::{AllocError, Global};
use std::marker::Model;

/// Names, some of them more than once, each counted by a hash. Contracts see their list, the latest first.
pub struct Counts {
    alloc: Global,
    names: Vec<Text>,
    counts: IndexMap<Vec<u8>, Option<u32>>,
}

impl Drop for Counts {
    fn drop(self) {
        let Counts {
            alloc: _,
            names: _,
            counts: _,
        } = self;
    }
}

impl Model for Counts {
    ghost use Rattle.std.specs.Prelude.{List, ℕ};

    ghost Value = { List (List ℕ) };

    ghost use Rattle.std.specs.Prelude.{reverse};
    ghost use Rattle.csub_scopes.specs.Places.{AreCounts};

    ghost view = { λ c. reverse c.names.items };

    ghost invariant = { λ c. AreCounts c.counts (reverse c.names.items) };
}

impl Counts {
    /// No name.
    pub fn new(alloc: Global) -> Counts
        ensures { result ≡ [] }
    {
        Counts {
            alloc,
            names: Vec::new(alloc),
            counts: IndexMap::new(alloc),
        }
    }

    /// How often a name came.
    pub fn count(&self, name: &[u8]) -> u32
        ensures { result ≡ count_by (λ other. bytes_eq other name.now) self.now }
    {
        match place_of(&self.counts, name) {
            None => 0,
            Some(count) => count,
        }
    }

    /// Counts a name once more. An `Err` is want of memory, or a name that came 4,294,967,295 times, and nothing is
    /// counted then.
    pub fn add(&mut self, name: &Text) -> Result<(), AllocError>
        ensures ok { OnOk result (self.new ≡ name.now ∷ self.old) }
        ensures err { OnErr result (self.new ≡ self.old) }
    {
        let count = self.count(name.bytes());
        if count >= 4_294_967_295 {
            return Err(AllocError);
        }
        let key = name.bytes().to_vec(self.alloc)?;
        let name = name.copy()?;
        self.names.reserve(1)?;
        put(&mut self.counts, key, count + 1)?;
        self.names.push(name)?;
        Ok(())
    }
}
