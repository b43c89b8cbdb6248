//! The lines of a word and a value, written.
ghost use Rattle.std.specs.Prelude.{◌≡◌, ◌++◌, ◌∷◌, [], OnOk};
ghost use Rattle.std.specs.Fmt.{decimal};
ghost use Rattle.hex.specs.Hex.{encode_lower};
ghost use Rattle.line_text.specs.Bytes.{bytes_or_dash};
ghost use Rattle.line_text.specs.Values.{value_line};

use crate::bytes::push_bytes_or_dash;
use crate::hexadecimal::push_hex;
use crate::numbers::push_decimal;
use std::alloc::AllocError;

/// Appends the line of a word and a value that is text already. On `Err`, which is want of memory, a part
/// of the line may stand in the text, here and below.
pub fn push_text_line(text: &mut Vec<u8>, word: &[u8], value: &[u8]) -> Result<(), AllocError>
    ensures { OnOk result (text.new.items ≡ text.old.items ++ value_line word.now value.now ++ 10 ∷ []) }
{
    text.extend_from_slice(word)?;
    text.push(b' ')?;
    text.extend_from_slice(value)?;
    text.push(b'\n')?;
    Ok(())
}

/// Appends the line of a word and a number in decimal.
pub fn push_number_line(text: &mut Vec<u8>, word: &[u8], number: u64) -> Result<(), AllocError>
    ensures { OnOk result (text.new.items ≡ text.old.items ++ value_line word.now (decimal number) ++ 10 ∷ []) }
{
    text.extend_from_slice(word)?;
    text.push(b' ')?;
    push_decimal(text, number)?;
    text.push(b'\n')?;
    Ok(())
}

/// Appends the line of a word and some bytes: hexadecimal, or `-` where there are none.
pub fn push_bytes_line(text: &mut Vec<u8>, word: &[u8], bytes: &[u8]) -> Result<(), AllocError>
    ensures { OnOk result
        (text.new.items ≡ text.old.items ++ value_line word.now (bytes_or_dash bytes.now) ++ 10 ∷ []) }
{
    text.extend_from_slice(word)?;
    text.push(b' ')?;
    push_bytes_or_dash(text, bytes)?;
    text.push(b'\n')?;
    Ok(())
}

/// Appends the line of a word and a digest in hexadecimal.
pub fn push_digest_line(
    text: &mut Vec<u8>,
    word: &[u8],
    digest: &[u8; 32],
) -> Result<(), AllocError>
    ensures { OnOk result
        (text.new.items ≡ text.old.items ++ value_line word.now (encode_lower digest.now) ++ 10 ∷ []) }
{
    text.extend_from_slice(word)?;
    text.push(b' ')?;
    push_hex(text, digest)?;
    text.push(b'\n')?;
    Ok(())
}
