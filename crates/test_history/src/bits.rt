//! The crossed edges as bits of bytes, as version 3 has them.
ghost use Rattle.std.specs.Prelude.{◌≡◌, ◌≢◌, ◌<◌, ◌≤◌, ◌*◌, ℕ, List, Bool, length, IfOk, MatchOption, replicate, false};
ghost use Rattle.hex.specs.Hex.{IsBytes};
ghost use Rattle.line_text.specs.Bytes.{bytes_or_dash};
ghost use Rattle.edge_trace.specs.Rows.{has};
ghost use Rattle.test_history.specs.Faults.{bit_of};
ghost use Rattle.test_history.specs.HistoryTexts.{row_bytes};

use edge_trace::EdgeRow;
use line_text::read_bytes_or_dash;
use std::alloc::{AllocError, Global};

/// The bytes of a row: edge `8 * j + i` is the bit of value `2 ^ i` in byte `j`, and the bits that are left
/// over in the last byte are 0.
pub fn bytes_of_row(alloc: Global, row: &EdgeRow) -> Result<Vec<u8>, AllocError>
    ensures { IfOk result (λ bytes. bytes.items ≡ row_bytes row.now) }
{
    let count = row.edges().div_ceil(8);
    let mut bytes = Vec::with_capacity(alloc, count as usize)?;
    for at in 0..count {
        bytes.push(row.byte(at))?;
    }
    Ok(bytes)
}

/// Reads the row of `edges` edges whose bytes the text says.
pub fn row_of_bytes(alloc: Global, text: &[u8], edges: u32) -> Result<Option<EdgeRow>, AllocError>
    ensures { IfOk result (λ found. MatchOption found
        ((row : List Bool) → length row ≡ edges → text.now ≢ bytes_or_dash (row_bytes row))
        (λ row. (length row ≡ edges) × (text.now ≡ bytes_or_dash (row_bytes row)))) }
{
    match read_bytes_or_dash(alloc, text)? {
        Some(bytes) => row_of_bits(alloc, &bytes, edges),
        None => Ok(None),
    }
}

// The row of so many edges that has these bytes.
fn row_of_bits(alloc: Global, bytes: &[u8], edges: u32) -> Result<Option<EdgeRow>, AllocError>
    ensures row { IfOk result (λ found. MatchOption found
        ((row : List Bool) → length row ≡ edges → bytes.now ≢ row_bytes row)
        (λ row. (length row ≡ edges) × (bytes.now ≡ row_bytes row))) }
    ensures bytes { IsBytes bytes.now }
{
    if bytes.len() != edges.div_ceil(8) as usize {
        return Ok(None);
    }
    let mut row = EdgeRow::new(alloc, edges)?;
    set_bits(&mut row, bytes);
    // a bit that stands for no edge is not in the row, and must not be in the text
    if bytes_of_row(alloc, &row)?.as_slice() == bytes {
        Ok(Some(row))
    } else {
        Ok(None)
    }
}

// Adds the edges whose bits are set to an empty row.
fn set_bits(row: &mut EdgeRow, bytes: &[u8])
    requires empty { row.old ≡ replicate (length row.old) false }
    requires enough { length row.old ≤ 8 * length bytes.now }
    ensures edges { length row.new ≡ length row.old }
    ensures bits { (edge : ℕ) → edge < length row.old → has row.new edge ≡ bit_of bytes.now edge }
{
    for edge in 0..row.edges() {
        if has_bit(bytes, edge) {
            row.set(edge);
        }
    }
}

// Whether the bit of an edge is set.
fn has_bit(bytes: &[u8], edge: u32) -> bool
    requires { edge < 8 * length bytes.now }
    ensures { result ≡ bit_of bytes.now edge }
{
    (bytes[edge as usize / 8] >> (edge % 8)) & 1 == 1
}
