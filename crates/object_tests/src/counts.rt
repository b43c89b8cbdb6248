//! How many cells types have, and which types an object may have.
use crate::build::{int, ints, point};
use csub_objects::{CType, array_of, cells, is_sized, loose_of};
use std::alloc::Global;
use std::test::Fail;

/// How many cells an array has.
fn array_cells(alloc: Global, lengths: &[u32]) -> Result<u64, Fail> {
    Ok(cells(&ints(alloc, lengths)?))
}

/// How many cells `struct p { int x; int y; int row[LENGTH]; }` has.
fn struct_cells(alloc: Global, length: u32) -> Result<u64, Fail> {
    let row = ints(alloc, &[length])?;
    Ok(cells(&point(alloc, b"p", row)?))
}

#[test]
fn cells_are_counted_up_to_65_536(rt: HostRuntime) -> Result<(), Fail> {
    let alloc = rt.alloc();
    for &(length, count) in &[
        (6, 8),
        (65_534, 65_536),
        (65_535, 65_537),
        (4_294_967_295, 65_537),
    ] {
        assert_eq!(rt; struct_cells(alloc, length)?, count);
    }
    assert_eq!(rt; array_cells(alloc, &[4, 3, 2])?, 24);
    assert_eq!(rt; array_cells(alloc, &[65_536])?, 65_536);
    assert_eq!(rt; array_cells(alloc, &[256, 2, 256])?, 65_537);
    Ok(())
}

/// The cells of an array parameter of arrays of 7.
fn parameter_cells(alloc: Global) -> Result<u64, Fail> {
    let element = ints(alloc, &[7])?;
    Ok(cells(&loose_of(alloc, element)?))
}

/// The cells of an array of 10 structs of 8 cells.
fn row_cells(alloc: Global) -> Result<u64, Fail> {
    let row = ints(alloc, &[6])?;
    let element = point(alloc, b"p", row)?;
    Ok(cells(&array_of(alloc, element, 10)?))
}

#[test]
fn cells_of_elements_count_in_arrays_alone(rt: HostRuntime) -> Result<(), Fail> {
    assert_eq!(rt; parameter_cells(rt.alloc())?, 1);
    assert_eq!(rt; row_cells(rt.alloc())?, 80);
    Ok(())
}

/// Whether an object may be an array.
fn fits(alloc: Global, lengths: &[u32]) -> Result<bool, Fail> {
    Ok(is_sized(&ints(alloc, lengths)?))
}

#[test]
fn arrays_have_limits(rt: HostRuntime) -> Result<(), Fail> {
    let alloc = rt.alloc();
    for lengths in [[1, 1, 1], [256, 1, 256], [1, 65_536, 1]] {
        assert!(rt; fits(alloc, &lengths)?);
    }
    for lengths in [[1, 0, 1], [1, 65_537, 1], [256, 2, 256]] {
        assert!(rt; !fits(alloc, &lengths)?);
    }
    assert!(rt; !fits(alloc, &[1, 1, 1, 1])?);
    Ok(())
}

/// Structs inside each other.
fn nested(alloc: Global, levels: u32) -> Result<CType, Fail> {
    let mut made = int();
    for _ in 0..levels {
        made = point(alloc, b"p", made)?;
    }
    Ok(made)
}

/// Whether an object may have so many structs inside each other.
fn nests(alloc: Global, levels: u32) -> Result<bool, Fail> {
    Ok(is_sized(&nested(alloc, levels)?))
}

#[test]
fn thirty_two_structs_stand_inside_each_other(rt: HostRuntime) -> Result<(), Fail> {
    assert!(rt; nests(rt.alloc(), 32)? && !nests(rt.alloc(), 33)?);
    Ok(())
}
