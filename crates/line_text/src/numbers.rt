//! Decimal numbers.
ghost use Rattle.std.specs.Prelude.{◌≡◌, ◌≢◌, ◌≤◌, ◌++◌, ℕ, ℤ, length, OnOk, OnErr, MatchOption, FitsSigned};
ghost use Rattle.std.specs.Int.{w64};
ghost use Rattle.std.specs.Fmt.{decimal, signed_decimal};

use itoa::Buffer;
use std::alloc::AllocError;

/// Appends the digits of a number, without a leading zero. On `Err` nothing is appended.
pub fn push_decimal(out: &mut Vec<u8>, number: u64) -> Result<(), AllocError>
    ensures ok { OnOk result (out.new.items ≡ out.old.items ++ decimal number) }
    ensures err { OnErr result (out.new.items ≡ out.old.items) }
{
    let mut buffer = Buffer::new();
    out.extend_from_slice(buffer.format(number).as_bytes())
}

/// Appends the digits of a signed number, after a `-` where it is negative. On `Err` nothing is appended.
pub fn push_signed(out: &mut Vec<u8>, number: i64) -> Result<(), AllocError>
    ensures ok { OnOk result (out.new.items ≡ out.old.items ++ signed_decimal number) }
    ensures err { OnErr result (out.new.items ≡ out.old.items) }
{
    let mut buffer = Buffer::new();
    out.extend_from_slice(buffer.format(number).as_bytes())
}

/// How many digits `push_decimal` appends for a number.
pub fn decimal_length(number: u64) -> u64
    ensures exact { result ≡ length (decimal number) }
    ensures small { result ≤ 20 }
{
    let mut buffer = Buffer::new();
    buffer.format(number).len() as u64
}

/// Reads a number of at most `most`, and refuses every text that `push_decimal` does not write of one:
/// an empty text, a sign, a leading zero, a space, a greater number.
pub fn read_decimal(text: &[u8], most: u64) -> Option<u64>
    ensures { MatchOption result
        ((number : ℕ) → number ≤ most → text.now ≢ decimal number)
        (λ number. (number ≤ most) × (text.now ≡ decimal number)) }
{
    if text.is_empty() {
        return None;
    }
    if text.len() > 1 && text[0] == b'0' {
        return None; // a leading zero
    }
    let mut value: u64 = 0;
    for digit in text {
        if !digit.is_ascii_digit() {
            return None;
        }
        value = value
            .checked_mul(10)?
            .checked_add(u64::from(*digit - b'0'))?;
    }
    if value <= most { Some(value) } else { None }
}

/// Reads a signed number, and refuses every text that `push_signed` does not write: among them `-0`.
pub fn read_signed(text: &[u8]) -> Option<i64>
    ensures { MatchOption result
        ((number : ℤ) → FitsSigned w64 number → text.now ≢ signed_decimal number)
        (λ number. text.now ≡ signed_decimal number) }
{
    match text.strip_prefix(b"-") {
        None => Some(read_decimal(text, i64::MAX as u64)? as i64),
        Some(digits) => {
            let magnitude = read_decimal(digits, 1 << 63)?;
            if magnitude == 0 {
                return None;
            }
            Some(-1 - (magnitude - 1) as i64)
        }
    }
}
