//! Cells, and the limits of types. What is asked of a struct was counted when its members were made.
ghost use Rattle.std.specs.Prelude.{◌↔◌, IsTrue};
ghost use Rattle.csub_objects.specs.Meaning.{type_tree};
ghost use Rattle.csub_objects.specs.Types.{HasArrays, IsCapped, IsSized, cells, dimensions, levels};

use crate::types::CType;

/// The number n, or 65,537 where it is larger than 65,536.
pub(crate) fn cap(n: u64) -> u64
    ensures { IsCapped result n }
{
    if n <= 65_536 { n } else { 65_537 }
}

/// How many cells an object of a type has (C11 6.2.5p20), 65,537 where there are more than 65,536. It takes a step for
/// each dimension.
pub fn cells(ctype: &CType) -> u64
    ensures { IsCapped result (cells (type_tree ctype.now)) }
{
    match ctype {
        CType::Num(_) | CType::Loose(_) => 1,
        CType::Array(element, length) => cap(cells(element.ctype()) * u64::from(*length)),
        CType::Struct(_, members) => members.cells(),
    }
}

/// How many structs stand inside each other, 65,537 where there are more than 65,536.
pub fn levels(ctype: &CType) -> u64
    ensures { IsCapped result (levels (type_tree ctype.now)) }
{
    match ctype {
        CType::Num(_) => 0,
        CType::Array(element, _) | CType::Loose(element) => levels(element.ctype()),
        CType::Struct(_, members) => cap(members.levels() + 1),
    }
}

/// How many array types stand inside each other with nothing between them, 65,537 where there are more than 65,536.
pub fn dimensions(ctype: &CType) -> u64
    ensures { IsCapped result (dimensions (type_tree ctype.now)) }
{
    match ctype {
        CType::Num(_) | CType::Struct(_, _) => 0,
        CType::Array(element, _) | CType::Loose(element) => cap(dimensions(element.ctype()) + 1),
    }
}

/// Whether the arrays in a type are within their limits.
pub(crate) fn has_arrays(ctype: &CType) -> bool
    ensures { IsTrue result ↔ HasArrays (type_tree ctype.now) }
{
    match ctype {
        CType::Num(_) => true,
        CType::Array(element, length) => {
            let inner = element.ctype();
            1 <= *length && *length <= 65_536 && dimensions(inner) < 3 && has_arrays(inner)
        }
        CType::Struct(_, members) => members.have_arrays(),
        CType::Loose(_) => false,
    }
}

/// Whether an object may have a type: it is complete (C11 6.2.5p22), each array in it has 1 to 65,536 elements, no more
/// than 3 dimensions stand in a row, it has at most 65,536 cells, and at most 32 structs stand inside each other.
pub fn is_sized(ctype: &CType) -> bool
    ensures { IsTrue result ↔ IsSized (type_tree ctype.now) }
{
    has_arrays(ctype) && cells(ctype) <= 65_536 && levels(ctype) <= 32
}
