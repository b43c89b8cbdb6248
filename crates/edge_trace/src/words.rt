//! Bits in words of 64. The place of a bit is 64 times the place of its word, and its place there,
//! counted from the lowest.

ghost use Rattle.std.specs.Prelude.{◌≡◌, ◌*◌, ◌^◌, ◌<◌, ◌≤◌, ◌||◌, ℕ, IsTrue, IfSome, IfNone, length};
ghost use Rattle.edge_trace.specs.Rows.{size, difference, IsLeastCommon, NoneCommon};
ghost use Rattle.edge_trace.specs.Words.{bit_of, bits_of};

/// Whether the bit at a place is set.
pub fn has_bit(words: &[u64], place: usize) -> bool
    requires { place < 64 * length words.now }
    ensures { result ≡ bit_of words.now place }
{
    (words[place / 64] >> (place % 64)) & 1 == 1
}

/// Sets the bit at a place.
pub fn set_bit(words: &mut Vec<u64>, place: usize)
    requires { place < 64 * length words.old.items }
    ensures len { length words.new.items ≡ length words.old.items }
    ensures same { IsTrue (bit_of words.new.items place) }
    ensures others { (other : ℕ) → (other ≡ place → ⊥)
        → bit_of words.new.items other ≡ bit_of words.old.items other }
{
    let word = words[place / 64];
    words[place / 64] = word | (1 << (place % 64));
}

/// Sets the bits that are set in other words.
pub fn join_bits(words: &mut Vec<u64>, others: &[u64])
    requires { length words.old.items ≡ length others.now }
    ensures len { length words.new.items ≡ length words.old.items }
    ensures either { (place : ℕ)
        → bit_of words.new.items place ≡ (bit_of words.old.items place || bit_of others.now place) }
{
    for (at, other) in others.iter().enumerate() {
        words[at] |= other;
    }
}

/// How many bits are set.
pub fn count_bits(words: &[u64]) -> u32
    requires { size (bits_of words.now) < 2 ^ 32 }
    ensures { result ≡ size (bits_of words.now) }
{
    words.iter().map(|word| word.count_ones()).sum()
}

/// How many bits are set that are not set in other words.
pub fn count_bits_beyond(words: &[u64], others: &[u64]) -> u32
    requires same { length words.now ≡ length others.now }
    requires fits { size (difference (bits_of words.now) (bits_of others.now)) < 2 ^ 32 }
    ensures { result ≡ size (difference (bits_of words.now) (bits_of others.now)) }
{
    let mut total = 0;
    for (at, word) in words.iter().enumerate() {
        total += (word & !others[at]).count_ones();
    }
    total
}

/// The lowest bit that is set in both lists of words.
pub fn lowest_common_bit(words: &[u64], others: &[u64]) -> Option<u32>
    requires same { length words.now ≡ length others.now }
    requires small { 64 * length words.now ≤ 2 ^ 32 }
    ensures some { IfSome result (IsLeastCommon (bits_of words.now) (bits_of others.now)) }
    ensures none { IfNone result (NoneCommon (bits_of words.now) (bits_of others.now)) }
{
    for (at, word) in words.iter().enumerate() {
        let common = word & others[at];
        if common != 0 {
            return Some(64 * at as u32 + common.trailing_zeros());
        }
    }
    None
}
