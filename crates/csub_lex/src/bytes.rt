//! Classes of bytes.
ghost use Rattle.std.specs.Prelude.{◌≡◌, ◌≤◌, ◌==◌, take, drop, length};
ghost use Rattle.std.specs.List.{prefix_len};
ghost use Rattle.csub_lex.specs.Bytes.{is_blank, is_gap, is_letter, is_word, no_newline};
ghost use Rattle.csub_lex.specs.Finding.{begins, behind};

/// White space (C11 6.4p3), with the carriage return.
pub fn is_blank(byte: u8) -> bool
    ensures { result ≡ is_blank byte }
{
    matches!(byte, b' ' | b'\t' | b'\n' | b'\r' | b'\x0b' | b'\x0c')
}

/// White space other than a newline.
pub fn is_gap(byte: u8) -> bool
    ensures { result ≡ is_gap byte }
{
    is_blank(byte) && byte != b'\n'
}

/// A letter or `_`, with which a name begins (C11 6.4.2.1).
pub fn is_letter(byte: u8) -> bool
    ensures { result ≡ is_letter byte }
{
    byte.is_ascii_alphabetic() || byte == b'_'
}

/// A letter, a digit or `_`.
pub fn is_word(byte: u8) -> bool
    ensures { result ≡ is_word byte }
{
    is_letter(byte) || byte.is_ascii_digit()
}

/// How many letters, digits and `_` the bytes begin with.
pub fn word_len(bytes: &[u8]) -> usize
    ensures value { result ≡ prefix_len is_word bytes.now }
    ensures within { result ≤ length bytes.now }
{
    bytes.iter().take_while(|byte| is_word(**byte)).count()
}

/// How many blanks of one line the bytes begin with.
fn gap_len(bytes: &[u8]) -> usize
    ensures value { result ≡ prefix_len is_gap bytes.now }
    ensures within { result ≤ length bytes.now }
{
    bytes.iter().take_while(|byte| is_gap(**byte)).count()
}

/// How many bytes stand before the first newline.
fn line_len(bytes: &[u8]) -> usize
    ensures value { result ≡ prefix_len no_newline bytes.now }
    ensures within { result ≤ length bytes.now }
{
    bytes.iter().take_while(|byte| **byte != b'\n').count()
}

/// The bytes behind the blanks of the line that they begin with.
#[tactic(auto, unfolding(crate::specs::Finding::behind))]
pub fn behind_gap(bytes: &[u8]) -> &[u8]
    ensures { result.now ≡ behind is_gap bytes.now }
{
    from(bytes, gap_len(bytes))
}

/// The bytes from the first newline on.
#[tactic(auto, unfolding(crate::specs::Finding::behind))]
pub fn behind_line(bytes: &[u8]) -> &[u8]
    ensures { result.now ≡ behind no_newline bytes.now }
{
    from(bytes, line_len(bytes))
}

/// Whether the first byte is this one.
pub fn begins_with(bytes: &[u8], byte: u8) -> bool
    ensures { result ≡ begins (λ b. b == byte) bytes.now }
{
    match bytes {
        [] => false,
        [first, ..] => *first == byte,
    }
}

/// The bytes from a place on.
pub fn from(bytes: &[u8], at: usize) -> &[u8]
    requires { at ≤ length bytes.now }
    ensures { result.now ≡ drop at bytes.now }
{
    &bytes[at..]
}

/// The bytes before a place.
pub fn front(bytes: &[u8], at: usize) -> &[u8]
    requires { at ≤ length bytes.now }
    ensures { result.now ≡ take at bytes.now }
{
    &bytes[..at]
}
