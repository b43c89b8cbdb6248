//! How members are found, and which types are the same.
use crate::build::{int, ints, perhaps, point};
use csub_objects::{CType, copy_type, first_cell, member_type, same_type};
use std::alloc::Global;
use std::test::Fail;

/// `struct TAG { int x; int y; int row[LENGTH]; }`
fn sample(alloc: Global, tag: &[u8], length: u32) -> Result<CType, Fail> {
    let row = ints(alloc, &[length])?;
    point(alloc, tag, row)
}

/// The first cell of a member.
fn first(alloc: Global, name: &[u8]) -> Result<Option<u64>, Fail> {
    Ok(first_cell(&sample(alloc, b"p", 5)?, name))
}

#[test]
fn members_are_found_by_their_names(rt: HostRuntime) -> Result<(), Fail> {
    let alloc = rt.alloc();
    for &(name, cell) in &[
        ("x", Some(0)),
        ("y", Some(1)),
        ("row", Some(2)),
        ("ro", None),
    ] {
        assert_eq!(rt; first(alloc, name.as_bytes())?, cell);
    }
    Ok(())
}

/// Whether a member is an `int`.
fn is_int(alloc: Global, name: &[u8]) -> Result<Option<bool>, Fail> {
    let held = sample(alloc, b"p", 5)?;
    Ok(member_type(&held, name).map(|found| same_type(found, &int())))
}

#[test]
fn members_have_their_types(rt: HostRuntime) -> Result<(), Fail> {
    let alloc = rt.alloc();
    for &(name, answer) in &[("y", Some(true)), ("row", Some(false)), ("z", None)] {
        assert_eq!(rt; is_int(alloc, name.as_bytes())?, answer);
    }
    Ok(())
}

/// Whether a struct of two members `x` and NAME is made.
fn is_made(alloc: Global, name: &[u8]) -> Result<bool, Fail> {
    Ok(perhaps(alloc, b"p", name, int())?.is_some())
}

#[test]
fn members_of_one_name_make_no_struct(rt: HostRuntime) -> Result<(), Fail> {
    let alloc = rt.alloc();
    assert!(rt; is_made(alloc, b"z")? && !is_made(alloc, b"x")? && !is_made(alloc, b"row")?);
    Ok(())
}

/// Whether a struct type is the same as the sample, or as a copy of it.
fn is_sample(alloc: Global, tag: &[u8], length: u32) -> Result<bool, Fail> {
    let made = sample(alloc, tag, length)?;
    Ok(same_type(&made, &sample(alloc, b"p", 5)?))
}

/// Whether a copy is the same.
fn is_copied(alloc: Global) -> Result<bool, Fail> {
    let made = sample(alloc, b"p", 5)?;
    Ok(same_type(&made, &copy_type(&made)?))
}

#[test]
fn types_differ_by_tags_and_members(rt: HostRuntime) -> Result<(), Fail> {
    let alloc = rt.alloc();
    assert!(rt; is_copied(alloc)? && is_sample(alloc, b"p", 5)?);
    assert!(rt; !is_sample(alloc, b"q", 5)? && !is_sample(alloc, b"p", 6)?);
    Ok(())
}
