//! The line of the crossed edges.
ghost use Rattle.std.specs.Prelude.{◌≡◌, ◌≢◌, ◌++◌, ◌∷◌, List, Bool, length, IfOk, MatchOption};
ghost use Rattle.test_history.specs.HistoryTexts.{crossed_line, crossed_text};
ghost use Rattle.line_text.specs.Lines.{HasLine};

use crate::bits::row_of_bytes;
use crate::numbers::row_of_numbers;
use crate::version::Version;
use edge_trace::EdgeRow;
use line_text::cut_value;
use std::alloc::{AllocError, Global};

/// Reads the line of the crossed edges, of which there are `edges`.
pub fn read_crossed<'a>(
    alloc: Global,
    version: Version,
    text: &'a [u8],
    edges: u32,
) -> Result<Option<(EdgeRow, &'a [u8])>, AllocError>
    ensures { IfOk result (λ found. MatchOption found
        ((row : List Bool) → length row ≡ edges → ¬ HasLine text.now 1 (crossed_line version row))
        (λ read. (length read.0 ≡ edges) × (text.now ≡ crossed_line version read.0 ++ 10 ∷ read.1.now))) }
{
    let Some(value) = cut_value(text, b"crossed") else {
        return Ok(None);
    };
    match row_of(alloc, version, value.bytes, edges)? {
        Some(row) => Ok(Some((row, value.rest))),
        None => Ok(None),
    }
}

// The row that the text stands for.
fn row_of(
    alloc: Global,
    version: Version,
    text: &[u8],
    edges: u32,
) -> Result<Option<EdgeRow>, AllocError>
    ensures { IfOk result (λ found. MatchOption found
        ((row : List Bool) → length row ≡ edges → text.now ≢ crossed_text version row)
        (λ row. (length row ≡ edges) × (text.now ≡ crossed_text version row))) }
{
    match version {
        Version::Second => row_of_numbers(alloc, text, edges),
        Version::Third => row_of_bytes(alloc, text, edges),
    }
}
