//! Comments (C11 6.4.9) and include lines (6.10.2).
ghost use Rattle.std.specs.Prelude.{◌≡◌, ◌==◌, option_copied};
ghost use Rattle.csub_lex.specs.Lines.{blank_line};
ghost use Rattle.csub_lex.specs.Finding.{opens, behind_close, ends_include, behind_header, behind_include};

use crate::bytes::{begins_with, behind_gap, from};

/// Whether a comment is opened by `/` and this byte.
pub fn opens(bytes: &[u8], second: u8) -> bool
    ensures { result ≡ opens second bytes.now }
{
    match bytes {
        [] => false,
        [_] => false,
        [first, next, ..] => *first == b'/' && *next == second,
    }
}

/// The bytes behind the first `*/`.
pub fn behind_close(bytes: &[u8]) -> Option<&[u8]>
    ensures { option_copied result ≡ behind_close bytes.now }
{
    let mut at = 0;
    while at + 1 < bytes.len() {
        if bytes[at] == b'*' && bytes[at + 1] == b'/' {
            return Some(from(bytes, at + 2));
        }
        at += 1;
    }
    None
}

/// Whether only spaces and tabs stand on the line that these bytes lead to.
pub fn is_blank_line(before: &[u8]) -> bool
    ensures { result ≡ blank_line before.now }
{
    let mut end = before.len();
    while end > 0 {
        match before[end - 1] {
            b'\n' => return true,
            b' ' | b'\t' => end -= 1,
            _ => return false,
        }
    }
    true
}

/// Whether an include line ends in front of these bytes: at the end, a newline, or a comment that is closed.
#[tactic(auto, unfolding(crate::specs::Finding::ends_include))]
fn ends_include(bytes: &[u8]) -> bool
    ensures { result ≡ ends_include bytes.now }
{
    bytes.is_empty()
        || begins_with(bytes, b'\n')
        || opens(bytes, b'/')
        || (opens(bytes, b'*') && behind_close(from(bytes, 2)).is_some())
}

/// The bytes behind the name of a header.
#[tactic(auto, unfolding(crate::specs::Finding::behind_header, crate::specs::Finding::strip))]
fn behind_header(bytes: &[u8]) -> Option<&[u8]>
    ensures { option_copied result ≡ behind_header bytes.now }
{
    match bytes.strip_prefix(b"<stdio.h>".as_slice()) {
        Some(after) => Some(after),
        None => bytes.strip_prefix(b"<stdlib.h>".as_slice()),
    }
}

/// The bytes behind an include line, of which the `#` is gone.
#[tactic(auto, unfolding(crate::specs::Finding::behind_include, crate::specs::Finding::strip))]
pub fn behind_include(bytes: &[u8]) -> Option<&[u8]>
    ensures { option_copied result ≡ behind_include bytes.now }
{
    let after = behind_gap(bytes).strip_prefix(b"include".as_slice())?;
    let end = behind_gap(behind_header(behind_gap(after))?);
    ends_include(end).then_some(end)
}
