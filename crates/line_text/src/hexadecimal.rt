//! Bytes as two hexadecimal digits each, in lower case.
ghost use Rattle.std.specs.Prelude.{◌≡◌, ◌≢◌, ◌++◌, ℕ, List, length, OnOk, OnErr, IfOk, MatchOption};
ghost use Rattle.std.specs.Char.{is_ascii_uppercase};
ghost use Rattle.std.specs.List.{list_any};
ghost use Rattle.hex.specs.Hex.{encode_lower, IsBytes};

use hex::{FromHexError, decode, decode_to_slice, encode_to_slice};
use std::alloc::{AllocError, Global};

/// Appends two digits for each byte, in lower case. On `Err` nothing is appended.
pub fn push_hex(out: &mut Vec<u8>, bytes: &[u8]) -> Result<(), AllocError>
    ensures ok { OnOk result (out.new.items ≡ out.old.items ++ encode_lower bytes.now) }
    ensures err { OnErr result (out.new.items ≡ out.old.items) }
{
    out.reserve(2 * bytes.len())?;
    let start = out.len();
    out.resize(start + 2 * bytes.len(), 0)?;
    encode_to_slice(bytes, &mut out[start..]).unwrap();
    Ok(())
}

/// Reads the bytes that two digits each in lower case stand for, and refuses every other text: an odd
/// number of digits, upper case, any other byte. The empty text is no bytes.
pub fn read_hex(alloc: Global, text: &[u8]) -> Result<Option<Vec<u8>>, AllocError>
    ensures { IfOk result (λ found. MatchOption found
        ((bytes : List ℕ) → IsBytes bytes → text.now ≢ encode_lower bytes)
        (λ bytes. text.now ≡ encode_lower bytes.items)) }
{
    if has_upper_case(text) {
        return Ok(None);
    }
    match decode(alloc, text) {
        Ok(bytes) => Ok(Some(bytes)),
        Err(error) => match error {
            FromHexError::OutOfMemory => Err(AllocError),
            _ => Ok(None),
        },
    }
}

/// Reads the 32 bytes that exactly 64 digits in lower case stand for, as of a SHA-256 digest. It takes
/// no memory.
pub fn read_digest(text: &[u8]) -> Option<[u8; 32]>
    ensures { MatchOption result
        ((digest : List ℕ) → length digest ≡ 32 → IsBytes digest → text.now ≢ encode_lower digest)
        (λ digest. text.now ≡ encode_lower digest) }
{
    if has_upper_case(text) {
        return None;
    }
    let mut digest = [0u8; 32];
    decode_to_slice(text, &mut digest).ok()?;
    Some(digest)
}

// The decoder takes digits of both cases, and the formats have one text for each value.
fn has_upper_case(text: &[u8]) -> bool
    ensures { result ≡ list_any is_ascii_uppercase text.now }
{
    text.iter().any(|byte| byte.is_ascii_uppercase())
}
