//! Builds types, each function one thing.
use csub_objects::{CType, Member, array_of, struct_of};
use csub_text::Text;
use csub_types::IntKind;
use std::alloc::{AllocError, Global};
use std::test::Fail;

/// `int`.
pub fn int() -> CType {
    CType::Num(IntKind::Int)
}

/// An array of `int`, of a length for each dimension, the innermost first.
pub fn ints(alloc: Global, lengths: &[u32]) -> Result<CType, Fail> {
    let mut made = int();
    for length in lengths {
        made = array_of(alloc, made, *length)?;
    }
    Ok(made)
}

/// One member more.
fn with(
    alloc: Global,
    mut members: Vec<Member>,
    name: &[u8],
    ctype: CType,
) -> Result<Vec<Member>, AllocError> {
    let name = Text::new(alloc, name)?;
    members.push(Member { name, ctype })?;
    Ok(members)
}

/// `struct TAG { int x; int NAME; TYPE row; }`, where its names differ.
pub fn perhaps(
    alloc: Global,
    tag: &[u8],
    name: &[u8],
    row: CType,
) -> Result<Option<CType>, AllocError> {
    let members = with(alloc, Vec::new(alloc), b"x", int())?;
    let members = with(alloc, members, name, int())?;
    let members = with(alloc, members, b"row", row)?;
    struct_of(alloc, Text::new(alloc, tag)?, members)
}

/// `struct TAG { int x; int y; TYPE row; }`
pub fn point(alloc: Global, tag: &[u8], row: CType) -> Result<CType, Fail> {
    Ok(perhaps(alloc, tag, b"y", row)?.ok_or("refused")?)
}
