//! Bytes as one word of a line.
ghost use Rattle.std.specs.Prelude.{◌≡◌, ◌≢◌, ◌≤◌, ◌+◌, ◌*◌, ◌++◌, ℕ, List, length, OnOk, OnErr, IfOk, MatchOption};
ghost use Rattle.hex.specs.Hex.{IsBytes};
ghost use Rattle.line_text.specs.Bytes.{bytes_or_dash};

use crate::hexadecimal::{push_hex, read_hex};
use std::alloc::{AllocError, Global};

/// Appends the word for some bytes: `-` where there are none, and else two lower-case hexadecimal
/// digits for each. On `Err` nothing is appended.
pub fn push_bytes_or_dash(out: &mut Vec<u8>, bytes: &[u8]) -> Result<(), AllocError>
    ensures ok { OnOk result (out.new.items ≡ out.old.items ++ bytes_or_dash bytes.now) }
    ensures err { OnErr result (out.new.items ≡ out.old.items) }
{
    if bytes.is_empty() {
        out.extend_from_slice(b"-")
    } else {
        push_hex(out, bytes)
    }
}

/// How many bytes `push_bytes_or_dash` appends for some bytes.
pub fn bytes_or_dash_length(bytes: &[u8]) -> u64
    ensures exact { result ≡ length (bytes_or_dash bytes.now) }
    ensures small { result ≤ 1 + 2 * length bytes.now }
{
    if bytes.is_empty() {
        1
    } else {
        2 * bytes.len() as u64
    }
}

/// Reads the bytes that a word stands for, and refuses every text that `push_bytes_or_dash` does not
/// write: among them the empty one.
pub fn read_bytes_or_dash(alloc: Global, text: &[u8]) -> Result<Option<Vec<u8>>, AllocError>
    ensures { IfOk result (λ found. MatchOption found
        ((bytes : List ℕ) → IsBytes bytes → text.now ≢ bytes_or_dash bytes)
        (λ bytes. text.now ≡ bytes_or_dash bytes.items)) }
{
    if text == b"-".as_slice() {
        Ok(Some(Vec::new(alloc)))
    } else if text.is_empty() {
        Ok(None)
    } else {
        read_hex(alloc, text)
    }
}
