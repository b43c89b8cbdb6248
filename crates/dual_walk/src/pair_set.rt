//! A set of pairs of numbers below two bounds, with one bit for each pair.
ghost use Rattle.std.specs.Prelude.{◌≡◌, ◌≤◌, ◌<◌, ◌+◌, ◌*◌, ◌^◌, ◌↔◌, ◌⊎◌, ℕ, IsTrue, IfOk, length, vec_len};
ghost use Rattle.dual_walk.specs.Bits.{IsIn, bit_of};

use std::alloc::{AllocError, Global};

/// A set of pairs of numbers, the first below `height` and the second below `width`. It takes a bit for each pair.
#[derive(Drop)]
pub struct PairSet {
    /// The bound of the first numbers.
    pub height: usize,
    /// The bound of the second numbers.
    pub width: usize,
    /// The bits, row by row.
    pub words: Vec<u64>,
    ghost fits: { height * width ≤ 64 * vec_len words },
    ghost small: { height * width < 2 ^ 64 },
}

/// Whether the bit at a place is set.
fn get_bit(words: &[u64], place: usize) -> bool
    requires { place < 64 * length words.now }
    ensures { IsTrue result ↔ (bit_of words.now place ≡ 1) }
{
    (words[place / 64] >> (place % 64)) & 1 == 1
}

/// Sets the bit at a place.
fn set_bit(words: &mut Vec<u64>, place: usize)
    requires { place < 64 * length words.old.items }
    ensures len { length words.new.items ≡ length words.old.items }
    ensures same { bit_of words.new.items place ≡ 1 }
    ensures other { (k : ℕ) → (k ≡ place → ⊥) → bit_of words.new.items k ≡ bit_of words.old.items k }
{
    let word = words[place / 64];
    words[place / 64] = word | (1 << (place % 64));
}

impl PairSet {
    /// The empty set. An `Err` is want of memory.
    pub fn new(alloc: Global, height: usize, width: usize) -> Result<PairSet, AllocError>
        requires { height * width < 2 ^ 64 }
        ensures height { IfOk result (λ set. set.height ≡ height) }
        ensures width { IfOk result (λ set. set.width ≡ width) }
        ensures none { IfOk result (λ set. (n n' : ℕ) → IsIn set.width set.words.items n n' → ⊥) }
    {
        let words = vec![in alloc; 0; height * width / 64 + 1]?;
        Ok(PairSet {
            height,
            width,
            words,
        })
    }

    /// Whether a pair is in the set.
    pub fn has(&self, row: usize, column: usize) -> bool
        requires row { row < self.now.height }
        requires column { column < self.now.width }
        ensures { IsTrue result ↔ IsIn self.now.width self.now.words.items row column }
    {
        get_bit(&self.words, row * self.width + column)
    }

    /// Adds a pair.
    pub fn add(&mut self, row: usize, column: usize)
        requires row { row < self.old.height }
        requires column { column < self.old.width }
        ensures height { self.new.height ≡ self.old.height }
        ensures width { self.new.width ≡ self.old.width }
        ensures pair { (n n' : ℕ) → IsIn self.new.width self.new.words.items n n' ↔ (IsIn self.old.width self.old.words.items n n' ⊎ ((n ≡ row) × (n' ≡ column))) }
    {
        let place = row * self.width + column;
        set_bit(&mut self.words, place);
    }
}
