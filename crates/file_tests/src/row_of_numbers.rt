//! Rows made of their numbers.
ghost use Rattle.std.specs.Prelude.{◌≡◌, length, IfOk};

use edge_trace::EdgeRow;
use std::alloc::{AllocError, Global};

/// The set of those of the numbers that are below `edges`.
pub fn row_of_numbers(alloc: Global, edges: u32, numbers: &[u32]) -> Result<EdgeRow, AllocError>
    ensures { IfOk result (λ row. length row ≡ edges) }
{
    let mut row = EdgeRow::new(alloc, edges)?;
    for &number in numbers {
        if number < row.edges() {
            row.set(number);
        }
    }
    Ok(row)
}
