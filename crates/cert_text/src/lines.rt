//! The lines of a certificate.
ghost use Rattle.std.specs.Prelude.{◌≡◌, ◌++◌, ◌∷◌, [], OnOk};
ghost use Rattle.cert_text.specs.CertificateTexts.{pair_line};

use crate::pair::Pair;
use line_text::push_decimal;
use std::alloc::AllocError;

/// Appends the line of a pair.
pub fn push_pair_line(text: &mut Vec<u8>, pair: Pair) -> Result<(), AllocError>
    ensures { OnOk result (text.new.items ≡ text.old.items ++ pair_line pair ++ 10 ∷ []) }
{
    text.extend_from_slice(b"pair ")?;
    push_decimal(text, u64::from(pair.old))?;
    text.push(b' ')?;
    push_decimal(text, u64::from(pair.new))?;
    text.push(b'\n')?;
    Ok(())
}
