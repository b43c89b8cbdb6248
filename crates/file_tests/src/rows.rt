//! Rows of edges: the bytes of known rows, sets across the borders of words, and workers that read rows side by side.
ghost use Rattle.std.specs.Prelude.{◌<◌};

use crate::row_of_numbers::row_of_numbers;
use edge_trace::EdgeRow;
use std::alloc::{AllocError, Global};
use std::test::Fail;
use std::thread;
use std::thread::Threads;

/// Numbers, their bytes, how many they are, and whether 5 is one.
const BYTES: &[(&[u32], [u8; 2], u32, bool)] = &[
    (&[0, 1, 2, 3, 4, 6, 8], [0x5f, 0x01], 7, false),
    (&[8, 0, 7, 5, 3, 2, 1, 1], [0xaf, 0x01], 7, true),
    (&[], [0, 0], 0, false),
];

#[test]
fn bytes_hold_eight_numbers_each_lowest_first(rt: HostRuntime) -> Result<(), Fail> {
    for &(numbers, bytes, count, has_5) in BYTES {
        let row = row_of_numbers(rt.alloc(), 9, numbers)?;
        let same = row.copy()?;
        assert_eq!(rt; same.edges(), 9);
        assert_eq!(rt; [same.byte(0), same.byte(1)], bytes);
        assert_eq!(rt;
            (row.count(), same.count(), row.beyond(&same)),
            (count, count, 0)
        );
        assert_eq!(rt; same.has(5), has_5);
    }
    Ok(())
}

const FIRST: &[u32] = &[5, 63, 64, 127, 128];

/// Numbers, the least one in `FIRST`, how many are not there, and how many are in either.
const MEETINGS: &[(&[u32], Option<u32>, u32, u32)] = &[
    (&[63, 64, 128], Some(63), 0, 5),
    (&[64, 128], Some(64), 0, 5),
    (&[62, 65, 127, 128], Some(127), 2, 7),
    (&[0, 126, 128, 129], Some(128), 3, 8),
    (&[4, 6, 69, 126, 129], None, 5, 10),
    (&[], None, 0, 5),
    (&[5, 63, 64, 127, 128], Some(5), 0, 5),
];

#[test]
fn sets_meet_across_the_borders_of_words(rt: HostRuntime) -> Result<(), Fail> {
    for &(numbers, least, new, either) in MEETINGS {
        let mut seen = row_of_numbers(rt.alloc(), 130, FIRST)?;
        let row = row_of_numbers(rt.alloc(), 130, numbers)?;
        assert_eq!(rt; row.meets(&seen), least);
        assert_eq!(rt; row.beyond(&seen), new);
        seen.join(&row);
        assert_eq!(rt; seen.count(), either);
        assert_eq!(rt; row.beyond(&seen), 0);
    }
    Ok(())
}

#[test]
fn a_bound_of_0_leaves_the_empty_set(rt: HostRuntime) -> Result<(), Fail> {
    let mut row = EdgeRow::new(rt.alloc(), 0)?;
    let other = row.copy()?;
    row.join(&other);
    assert_eq!(rt; (row.edges(), row.count()), (0, 0));
    assert_eq!(rt; (row.meets(&other), row.beyond(&other)), (None, 0));
    Ok(())
}

/// How many numbers the rows of each chunk have in all.
fn counts<R: Threads + Sync>(
    rt: &R,
    alloc: Global,
    rows: &[EdgeRow],
    size: usize,
) -> Result<Vec<u64>, AllocError>
    requires { 0 < size }
{
    thread::map_chunks(
        rt,
        alloc,
        rows,
        size,
        &|_, chunk| {
            chunk.iter().fold(
                0,
                |count: u64, row| count.saturating_add(u64::from(row.count())),
            )
        },
    )
}

#[test]
fn workers_read_rows_side_by_side(rt: HostRuntime) -> Result<(), Fail> {
    let mut rows = Vec::new(rt.alloc());
    for numbers in &[[0, 1, 2], [3, 3, 3], [0, 63, 64], [127, 1, 1], [5, 6, 7]] {
        rows.push(row_of_numbers(rt.alloc(), 128, numbers)?)?;
    }
    assert_eq!(rt;
        counts(&rt, rt.alloc(), &rows, 2)?.as_slice(),
        [4, 5, 3].as_slice()
    );
    Ok(())
}
