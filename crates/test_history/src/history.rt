//! What the tests of a suite gave on one source.
ghost use Rattle.std.specs.Prelude.{◌≡◌, length};
ghost use Rattle.test_history.specs.Histories.{HaveRows};

use crate::entry::Entry;
use std::marker::Model;

/// The digest of a source, the number of edges of its program, and the entries of the tests that ran on
/// it. In every entry the row of crossed edges has that number of edges. Contracts see the three parts,
/// the digest and the entries as lists.
pub struct History {
    digest: [u8; 32],
    edges: u32,
    entries: Vec<Entry>,
}

impl Drop for History {
    fn drop(self) {
        let History {
            digest: _,
            edges: _,
            entries: _,
        } = self;
    }
}

impl Model for History {
    ghost use Rattle.test_history.specs.Histories.{HistoryParts, IsKept};

    ghost Value = { HistoryParts };

    ghost view = { λ history. record {
      digest = history.digest;
      edges = history.edges;
      entries = history.entries.items;
    } };

    ghost invariant = { λ history. IsKept history.digest history.edges history.entries.items };
}

impl History {
    /// The history of these three parts.
    pub fn new(digest: [u8; 32], edges: u32, entries: Vec<Entry>) -> History
        requires { HaveRows edges entries.items }
        ensures { result ≡ record { digest = digest; edges = edges; entries = entries.items } }
    {
        History {
            digest,
            edges,
            entries,
        }
    }

    /// The SHA-256 digest of the source.
    pub fn digest(&self) -> &[u8; 32]
        ensures value { result.now ≡ self.now.digest }
        ensures size { length self.now.digest ≡ 32 }
    {
        &self.digest
    }

    /// The number of edges of the source's program.
    pub fn edges(&self) -> u32
        ensures { result ≡ self.now.edges }
    {
        self.edges
    }

    /// The entries, in the order of the tests.
    pub fn entries(&self) -> &[Entry]
        ensures value { result.now ≡ self.now.entries }
        ensures rows { HaveRows self.now.edges self.now.entries }
    {
        self.entries.as_slice()
    }
}
