//! Numbers (C11 6.4.4.1).
ghost use Rattle.std.specs.Prelude.{◌≡◌, ◌≤◌, ◌<◌, if◌then◌else◌, nat_le, length};
ghost use Rattle.std.specs.List.{prefix_len};
ghost use Rattle.csub_lex.specs.Bytes.{Run};
ghost use Rattle.csub_lex.specs.Numbers.{digit_value, is_digit_of, value_in};
ghost use Rattle.csub_lex.specs.Finding.{suffix_of, number_in, is_hexadecimal, number_of};

use crate::bytes::{begins_with, from, front};

/// The value of a digit, up to hexadecimal, and 16 for a byte that is no digit.
fn digit_value(byte: u8) -> u8
    ensures { result ≡ digit_value byte }
{
    match byte {
        b'0'..=b'9' => byte - b'0',
        b'a'..=b'f' => byte - b'a' + 10,
        b'A'..=b'F' => byte - b'A' + 10,
        _ => 16,
    }
}

/// Whether the byte is a digit of the base.
pub fn is_digit_of(base: u8, byte: u8) -> bool
    ensures { result ≡ is_digit_of base byte }
{
    digit_value(byte) < base
}

/// How many digits of the base the bytes begin with.
fn digits_len(base: u8, bytes: &[u8]) -> usize
    ensures value { result ≡ prefix_len (is_digit_of base) bytes.now }
    ensures within { result ≤ length bytes.now }
{
    bytes
        .iter()
        .take_while(|byte| is_digit_of(base, **byte))
        .count()
}

/// The value of digits of the base, where it fits.
fn value_in(base: u8, digits: &[u8]) -> Option<u32>
    requires some { 0 < base }
    requires small { base ≤ 16 }
    requires digits { Run (is_digit_of base) digits.now }
    ensures { result ≡ (if nat_le (value_in base digits.now) 4294967295 then Some (value_in base digits.now) else None) }
{
    let mut value: u32 = 0;
    for digit in digits {
        let next = u64::from(value) * u64::from(base) + u64::from(digit_value(*digit));
        if next > u64::from(u32::MAX) {
            return None;
        }
        value = next as u32;
    }
    Some(value)
}

/// Whether a suffix stands, where the bytes are none or one suffix.
fn suffix_of(bytes: &[u8]) -> Option<bool>
    ensures { result ≡ suffix_of bytes.now }
{
    match bytes {
        [] => Some(false),
        [b'u' | b'U'] => Some(true),
        _ => None,
    }
}

/// The value of digits of the base with at most one suffix, and whether the suffix stands.
#[tactic(auto, unfolding(crate::specs::Finding::number_in))]
fn number_in(base: u8, text: &[u8]) -> Option<(u32, bool)>
    requires some { 0 < base }
    requires small { base ≤ 16 }
    ensures { result ≡ number_in base text.now }
{
    let len = digits_len(base, text);
    let unsigned = suffix_of(from(text, len))?;
    let value = value_in(base, front(text, len))?;
    Some((value, unsigned))
}

/// Whether the text begins as a hexadecimal number.
fn is_hexadecimal(text: &[u8]) -> bool
    ensures { result ≡ is_hexadecimal text.now }
{
    match text {
        [b'0', b'x' | b'X', digit, ..] => is_digit_of(16, *digit),
        _ => false,
    }
}

/// The value of a number, and whether its suffix stands. `None` where the text is no number, or its value is too large.
#[tactic(auto, unfolding(crate::specs::Finding::number_of))]
pub fn number_of(text: &[u8]) -> Option<(u32, bool)>
    ensures { result ≡ number_of text.now }
{
    if is_hexadecimal(text) {
        return number_in(16, from(text, 2));
    }
    if begins_with(text, b'0') {
        return number_in(8, from(text, 1));
    }
    let (value, unsigned) = number_in(10, text)?;
    if unsigned || value <= i32::MAX as u32 {
        Some((value, unsigned))
    } else {
        None
    }
}
