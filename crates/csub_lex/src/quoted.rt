//! What stands between quotes (C11 6.4.4.4, 6.4.5).
ghost use Rattle.std.specs.Prelude.{◌≡◌, Result, Ok, Err, IfOk, option_map, Option, None, Some};
ghost use Rattle.csub_lex.specs.Quoted.{is_plain, escape_value};
ghost use Rattle.csub_lex.specs.Numbers.{is_digit_of};
ghost use Rattle.csub_lex.specs.Finding.{begins, escaped, character_of, characters_of};

use crate::bytes::{begins_with, from};
use crate::number::is_digit_of;
use csub_text::Text;
use std::alloc::{AllocError, Global};

/// Whether the byte stands for itself between these quotes.
fn is_plain(quote: u8, byte: u8) -> bool
    ensures { result ≡ is_plain quote byte }
{
    matches!(byte, b' '..=b'~') && byte != b'\\' && byte != quote
}

/// What `\` and this byte stand for (C11 6.4.4.4p3 to 5).
fn escape_value(byte: u8) -> Option<u8>
    ensures { result ≡ escape_value byte }
{
    match byte {
        b'n' => Some(b'\n'),
        b't' => Some(b'\t'),
        b'r' => Some(b'\r'),
        b'a' => Some(7),
        b'b' => Some(8),
        b'f' => Some(12),
        b'v' => Some(11),
        b'\\' => Some(b'\\'),
        b'\'' => Some(b'\''),
        b'"' => Some(b'"'),
        b'?' => Some(b'?'),
        b'0' => Some(0),
        _ => None,
    }
}

/// Whether the first byte is an octal digit.
fn begins_octal(bytes: &[u8]) -> bool
    ensures { result ≡ begins (is_digit_of 8) bytes.now }
{
    match bytes {
        [] => false,
        [first, ..] => is_digit_of(8, *first),
    }
}

/// What `\` and this byte stand for in front of the bytes `after`: no octal digit may follow `\0`.
#[tactic(auto, unfolding(crate::specs::Finding::escaped))]
fn escaped(byte: u8, after: &[u8]) -> Option<u8>
    ensures { result ≡ escaped byte after.now }
{
    if byte == b'0' && begins_octal(after) {
        None
    } else {
        escape_value(byte)
    }
}

/// The first character or escape between these quotes: what it stands for, and the bytes behind it.
#[tactic(auto, unfolding(crate::specs::Finding::character_of))]
pub fn character_of(quote: u8, bytes: &[u8]) -> Option<(u8, &[u8])>
    ensures { option_map (λ x. (x.0, x.1.now)) result ≡ character_of quote bytes.now }
{
    match bytes {
        [] => None,
        [b'\\', byte, after @ ..] => Some((escaped(*byte, after)?, after)),
        [byte, after @ ..] => is_plain(quote, *byte).then_some((*byte, after)),
    }
}

/// What the characters up to the quote stand for, and the bytes behind the quote. An `Err` is want of memory.
pub fn characters_of(
    alloc: Global,
    quote: u8,
    bytes: &[u8],
) -> Result<Option<(Text, &[u8])>, AllocError>
    ensures { IfOk result (λ read. option_map (λ x. (x.0, x.1.now)) read ≡ characters_of quote bytes.now) }
{
    let mut values = Vec::new(alloc);
    let mut rest = bytes;
    while !begins_with(rest, quote) {
        match character_of(quote, rest) {
            Some((value, after)) => {
                values.push(value)?;
                rest = after;
            }
            None => return Ok(None),
        }
    }
    let text = Text::new(alloc, &values)?;
    Ok(Some((text, from(rest, 1))))
}
