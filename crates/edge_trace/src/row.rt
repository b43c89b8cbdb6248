//! The set itself.

ghost use Rattle.std.specs.Prelude.{◌≡◌, ◌+◌, ◌*◌, ◌<◌, ◌↔◌, ℕ, true, false, IsTrue, replicate, slice_set, length, IfOk, IfSome, IfNone};
ghost use Rattle.std.specs.Int.{bit_at};
ghost use Rattle.edge_trace.specs.Rows.{has, size, union, difference, byte_of, IsLeastCommon, NoneCommon};

use crate::words;
use std::alloc::{AllocError, Global};
use std::marker::Model;

/// A set of edge numbers below a bound.
///
/// It takes 8 bytes for each 64 numbers of the bound, whatever is in it. Only `new` and `copy` take
/// memory.
#[derive(Debug, Drop)]
pub struct EdgeRow {
    edges: u32,
    words: Vec<u64>,
}

impl Model for EdgeRow {
    ghost use Rattle.std.specs.Prelude.{List, Bool};
    ghost use Rattle.edge_trace.specs.Words.{row_of, IsKept};

    ghost Value = { List Bool };

    ghost view = { λ row. row_of row.edges row.words.items };

    ghost invariant = { λ row. IsKept row.edges row.words.items };
}

impl EdgeRow {
    /// The empty set of numbers below `edges`. The row keeps the allocator for `copy`. An error means
    /// that no memory was left.
    pub fn new(alloc: Global, edges: u32) -> Result<EdgeRow, AllocError>
        ensures { IfOk result (λ row. row ≡ replicate edges false) }
    {
        let words = vec![in alloc; 0; edges.div_ceil(64) as usize]?;
        Ok(EdgeRow { edges, words })
    }

    /// The bound: each number of the set is below it.
    pub fn edges(&self) -> u32
        ensures { result ≡ length self.now }
    {
        self.edges
    }

    /// Adds one number.
    pub fn set(&mut self, edge: u32)
        requires { edge < length self.old }
        ensures { self.new ≡ slice_set self.old edge true }
    {
        words::set_bit(&mut self.words, edge as usize);
    }

    /// Whether the number is in the set.
    pub fn has(&self, edge: u32) -> bool
        requires { edge < length self.now }
        ensures { result ≡ has self.now edge }
    {
        words::has_bit(&self.words, edge as usize)
    }

    /// How many numbers are in the set.
    pub fn count(&self) -> u32
        ensures { result ≡ size self.now }
    {
        words::count_bits(&self.words)
    }

    /// How many numbers of the set are not in `seen`.
    pub fn beyond(&self, seen: &EdgeRow) -> u32
        requires { length self.now ≡ length seen.now }
        ensures { result ≡ size (difference self.now seen.now) }
    {
        words::count_bits_beyond(&self.words, &seen.words)
    }

    /// The least number that both sets have, if any is common.
    pub fn meets(&self, other: &EdgeRow) -> Option<u32>
        requires { length self.now ≡ length other.now }
        ensures some { IfSome result (IsLeastCommon self.now other.now) }
        ensures none { IfNone result (NoneCommon self.now other.now) }
    {
        words::lowest_common_bit(&self.words, &other.words)
    }

    /// Adds all numbers of the other set.
    pub fn join(&mut self, other: &EdgeRow)
        requires { length self.old ≡ length other.now }
        ensures value { self.new ≡ union self.old other.now }
        ensures edges { length self.new ≡ length self.old }
    {
        words::join_bits(&mut self.words, &other.words);
    }

    /// Byte `at` of the row written as bytes of eight numbers each, `edges / 8` of them rounded up.
    /// Number `8 * at + i` is the bit of value `2 ^ i`, and bits from the bound on are 0.
    pub fn byte(&self, at: u32) -> u8
        requires { 8 * at < length self.now }
        ensures value { result ≡ byte_of self.now at }
        ensures bits { (i : ℕ) → i < 8 → (bit_at result i ≡ 1) ↔ IsTrue (has self.now (8 * at + i)) }
    {
        let word = self.words[at as usize / 8];
        ((word >> (8 * (at % 8))) & 0xff) as u8
    }

    /// An equal set with memory of its own. An error means that no memory was left.
    pub fn copy(&self) -> Result<EdgeRow, AllocError>
        ensures { IfOk result (λ row. row ≡ self.now) }
    {
        Ok(EdgeRow {
            edges: self.edges,
            words: self.words.clone()?,
        })
    }
}
