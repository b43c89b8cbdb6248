//! Places, and their text.
ghost use Rattle.std.specs.Prelude.{◌≡◌, ◌++◌, ◌≤◌, OnOk, length};
ghost use Rattle.source_place.specs.Places.{place_of, place_text};

use csub_lex::line_column;
use csub_text::Span;
use line_text::push_decimal;
use std::alloc::AllocError;

/// A place in a source: both count from 1, and a column is a byte.
#[derive(Clone, Copy, Debug, PartialEq, Eq)]
pub struct Place {
    /// The line.
    pub line: u32,
    /// The column.
    pub column: u32,
}

/// The place of the first byte of a span; that of the source's end where the span begins behind it. It goes once over the bytes
/// before the place.
pub fn place_of(source: &[u8], at: Span) -> Place
    requires { length source.now ≤ 1048576 }
    ensures { result ≡ place_of source.now at }
{
    let start = (at.start as usize).min(source.len());
    let (line, column) = line_column(source, start);
    Place { line, column }
}

/// Appends the text of a place: `3:14` for line 3 and column 14. An `Err` is want of memory.
pub fn push_place(text: &mut Vec<u8>, at: Place) -> Result<(), AllocError>
    ensures { OnOk result (text.new.items ≡ text.old.items ++ place_text at) }
{
    push_decimal(text, u64::from(at.line))?;
    text.push(b':')?;
    push_decimal(text, u64::from(at.column))
}
