//! The lines of a word and a value, read off the front of a text.
ghost use Rattle.std.specs.Prelude.{◌≡◌, ◌≤◌, ◌++◌, ◌∷◌, ℕ, MatchOption};
ghost use Rattle.std.specs.Fmt.{decimal};
ghost use Rattle.cert_text.specs.CertificateTexts.{title};
ghost use Rattle.line_text.specs.Values.{value_line, HasNumber};
ghost use Rattle.line_text.specs.Lines.{HasLine};

use line_text::{cut_value, read_number_line};

/// Reads line 1 of a certificate, and gives what follows it.
pub fn read_title(text: &[u8]) -> Option<&[u8]>
    ensures { MatchOption result (¬ HasLine text.now 1 title) (λ rest. text.now ≡ title ++ 10 ∷ rest.now) }
{
    let value = cut_value(text, b"dejavu certificate")?;
    if value.bytes == b"1".as_slice() {
        Some(value.rest)
    } else {
        None
    }
}

/// Reads the line of a word and a number of at most `most`.
pub fn read_number<'a>(text: &'a [u8], word: &[u8], most: u32) -> Option<(u32, &'a [u8])>
    ensures { MatchOption result
        ((number : ℕ) → ¬ HasNumber text.now 1 word.now most number)
        (λ read. (read.0 ≤ most) × (text.now ≡ value_line word.now (decimal read.0) ++ 10 ∷ read.1.now)) }
{
    let (number, rest) = read_number_line(text, word, u64::from(most))?;
    Some((number as u32, rest))
}
