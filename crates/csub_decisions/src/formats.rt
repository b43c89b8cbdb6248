//! Whether formats have a value for each of their conversions.
ghost use Rattle.std.specs.Prelude.{◌≡◌, ◌↔◌, IsTrue, length};
ghost use Rattle.csub_semantics.specs.Formats.{conversion_count, is_conversion};
ghost use Rattle.csub_validity.specs.Valid.{IsFormat};

use csub_semantics::{Piece, RExpr};

/// The most values of a format.
const MOST_VALUES: usize = 8;

/// Whether a format has a value for each of its conversions, and at most 8.
pub(crate) fn is_format(pieces: &[Piece], values: &[RExpr]) -> bool
    ensures { IsTrue result ↔ IsFormat pieces.now (length values.now) }
{
    count_conversions(pieces) == values.len() && values.len() <= MOST_VALUES
}

/// How many conversions a format has.
fn count_conversions(pieces: &[Piece]) -> usize
    ensures { result ≡ conversion_count pieces.now }
{
    let mut count = 0;
    for piece in pieces {
        if is_conversion(*piece) {
            count += 1;
        }
    }
    count
}

/// Whether a piece takes a value.
fn is_conversion(piece: Piece) -> bool
    ensures { result ≡ is_conversion piece }
{
    match piece {
        Piece::Byte(_) => false,
        Piece::Signed | Piece::Plain | Piece::Letter => true,
    }
}
