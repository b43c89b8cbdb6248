//! The lines of a word and a value, read off the front of a text.
ghost use Rattle.std.specs.Prelude.{◌≡◌, ◌≤◌, ◌<◌, ◌++◌, ◌∷◌, ℕ, List, length, IfOk, IfSome, MatchOption};
ghost use Rattle.std.specs.Fmt.{decimal};
ghost use Rattle.hex.specs.Hex.{encode_lower, IsBytes};
ghost use Rattle.line_text.specs.Bytes.{bytes_or_dash};
ghost use Rattle.line_text.specs.Lines.{HasLine};
ghost use Rattle.line_text.specs.Values.{value_line, IsDigest, HasNumber, HasBytes, HasDigest};

use crate::bytes::read_bytes_or_dash;
use crate::hexadecimal::read_digest;
use crate::lines::cut_line;
use crate::numbers::read_decimal;
use std::alloc::{AllocError, Global};

/// What the first line of a text says after its word, and what follows the line.
#[derive(Clone, Copy)]
pub struct Value<'a> {
    /// The line without its word, the space after it and its newline.
    pub bytes: &'a [u8],
    /// What follows the line and its newline.
    pub rest: &'a [u8],
}

/// Cuts a line that a newline ends and that begins with a word and a space off a text. `None` where the
/// text begins with no such line.
pub fn cut_value<'a>(text: &'a [u8], word: &[u8]) -> Option<Value<'a>>
    ensures cut { MatchOption result
        ((value : List ℕ) → ¬ HasLine text.now 1 (value_line word.now value))
        (λ cut. text.now ≡ value_line word.now cut.bytes.now ++ 10 ∷ cut.rest.now) }
    ensures line { IfSome result (λ cut. HasLine text.now 1 (value_line word.now cut.bytes.now)) }
{
    let line = cut_line(text)?;
    if !line.is_ended {
        return None;
    }
    let bytes = line.bytes.strip_prefix(word)?.strip_prefix(b" ")?;
    Some(Value {
        bytes,
        rest: line.rest,
    })
}

/// Reads the line of a word and a number of at most `most`, and refuses every other one.
pub fn read_number_line<'a>(text: &'a [u8], word: &[u8], most: u64) -> Option<(u64, &'a [u8])>
    ensures { MatchOption result
        ((number : ℕ) → ¬ HasNumber text.now 1 word.now most number)
        (λ read. (read.0 ≤ most) × (text.now ≡ value_line word.now (decimal read.0) ++ 10 ∷ read.1.now)) }
{
    let value = cut_value(text, word)?;
    let number = read_decimal(value.bytes, most)?;
    Some((number, value.rest))
}

/// The digest that the first line of a text says after its word, and what follows the line.
#[derive(Clone, Copy)]
pub struct DigestLine<'a> {
    /// The digest.
    pub digest: [u8; 32],
    /// What follows the line and its newline.
    pub rest: &'a [u8],
}

/// Reads the line of a word and a SHA-256 digest in 64 digits, and refuses every other one.
pub fn read_digest_line<'a>(text: &'a [u8], word: &[u8]) -> Option<DigestLine<'a>>
    ensures { MatchOption result
        (¬ HasDigest text.now 1 word.now)
        (λ line. IsDigest line.digest × (text.now ≡ value_line word.now (encode_lower line.digest) ++ 10 ∷ line.rest.now)) }
{
    let value = cut_value(text, word)?;
    let digest = read_digest(value.bytes)?;
    Some(DigestLine {
        digest,
        rest: value.rest,
    })
}

/// Reads the line of a word and at most `most` bytes, and refuses every other one.
pub fn read_bytes_line<'a>(
    alloc: Global,
    text: &'a [u8],
    word: &[u8],
    most: usize,
) -> Result<Option<(Vec<u8>, &'a [u8])>, AllocError>
    ensures { IfOk result (λ found. MatchOption found
        (¬ HasBytes text.now 1 word.now most)
        (λ read. IsBytes read.0.items × (length read.0.items ≤ most)
        × (text.now ≡ value_line word.now (bytes_or_dash read.0.items) ++ 10 ∷ read.1.now))) }
{
    let Some(value) = cut_value(text, word) else {
        return Ok(None);
    };
    let Some(bytes) = read_bytes_or_dash(alloc, value.bytes)? else {
        return Ok(None);
    };
    match limited(bytes, most) {
        Some(bytes) => Ok(Some((bytes, value.rest))),
        None => Ok(None),
    }
}

// The bytes, if they are at most `most`.
fn limited(bytes: Vec<u8>, most: usize) -> Option<Vec<u8>>
    ensures bytes { IsBytes bytes.items }
    ensures limit { MatchOption result
        (most < length bytes.items)
        (λ kept. (kept.items ≡ bytes.items) × (length kept.items ≤ most)) }
{
    if bytes.len() <= most {
        Some(bytes)
    } else {
        None
    }
}
