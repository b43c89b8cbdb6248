//! A list of numbers for each number below a bound.
ghost use Rattle.std.specs.Prelude.{◌≡◌, ◌<◌, ◌++◌, [], ◌∷◌, length, replicate, slice_get, slice_set, slice_index_or, Some, IfOk, OnOk, OnErr};

use std::alloc::{AllocError, Global};
use std::marker::Model;

/// A list of numbers for each number below a bound. Contracts see the list of these lists.
#[derive(Drop)]
pub struct Rows {
    rows: Vec<Vec<u32>>,
}

impl Model for Rows {
    ghost use Rattle.std.specs.Prelude.{List, ℕ, map};

    ghost Value = { List (List ℕ) };

    ghost view = { λ r. map (λ row. row.items) r.rows.items };
}

impl Rows {
    /// An empty list for each number below `count`. An `Err` is want of memory.
    pub fn new(alloc: Global, count: u32) -> Result<Rows, AllocError>
        ensures { IfOk result (λ rows. rows ≡ replicate count []) }
    {
        let mut rows = Vec::new(alloc);
        for _ in 0..count {
            rows.push(Vec::new(alloc))?;
        }
        Ok(Rows { rows })
    }

    /// The list at a number.
    pub fn row(&self, at: u32) -> &[u32]
        requires { at < length self.now }
        ensures { slice_get self.now at ≡ Some result.now }
    {
        self.rows[at as usize].as_slice()
    }

    /// Appends to the list at a number. An `Err` is want of memory, and changes nothing.
    pub fn push(&mut self, at: u32, value: u32) -> Result<(), AllocError>
        requires { at < length self.old }
        ensures appended { OnOk result (self.new ≡ slice_set self.old at (slice_index_or self.old at [] ++ value ∷ [])) }
        ensures unchanged { OnErr result (self.new ≡ self.old) }
    {
        self.rows[at as usize].push(value)?;
        Ok(())
    }

    /// Empties the list at a number.
    pub fn clear(&mut self, at: u32)
        requires { at < length self.old }
        ensures { self.new ≡ slice_set self.old at [] }
    {
        self.rows[at as usize].clear();
    }
}
