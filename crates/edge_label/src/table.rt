//! Codes with their numbers.
ghost use Rattle.std.specs.Prelude.{◌≡◌, ◌⊎◌, ◌∷◌, ◌++◌, [], Some, IfOk, slice_get};
ghost use Rattle.edge_label.specs.Numbers.{HasEachOnce};

use indexmap::IndexSet;
use std::alloc::{AllocError, Global};
use std::marker::Model;

/// Codes with their numbers, which are given from 0 on. Contracts see the list of the codes.
#[derive(Drop)]
pub struct CodeTable {
    codes: IndexSet<Vec<u64>>,
}

/// The tables of a book.
#[derive(Drop)]
pub struct Tables {
    /// Structs, with numbers in the place of the structs in the types of their members.
    pub structs: CodeTable,
    /// Types, with numbers in the place of structs, and globals, with numbers in the place of types.
    pub parts: CodeTable,
}

impl Model for CodeTable {
    ghost use Rattle.std.specs.Prelude.{ℕ, List, map};

    ghost Value = { List (List ℕ) };

    ghost view = { λ table. map (λ code. code.items) table.codes.keys };
}

impl CodeTable {
    /// A table that has given no number.
    pub fn new(alloc: Global) -> CodeTable
        ensures { result ≡ [] }
    {
        CodeTable {
            codes: IndexSet::new(alloc),
        }
    }

    /// The number of a code: the one that it has, or the next one. An `Err` is want of memory.
    pub fn number(&mut self, code: Vec<u64>) -> Result<u64, AllocError>
        ensures number { IfOk result (λ n. slice_get self.new n ≡ Some code.items) }
        ensures adds { (self.new ≡ self.old) ⊎ (self.new ≡ self.old ++ code.items ∷ []) }
        ensures once { HasEachOnce self.old → HasEachOnce self.new }
    {
        let (number, _) = self.codes.insert_full(code)?;
        Ok(number as u64)
    }
}
