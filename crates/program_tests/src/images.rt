//! Images of old edges in changed programs, worked out by hand from the numbers of the points and edges of both graphs.
use crate::graphs::{SMALL, graph_of};
use crate::walks::walk_counted;
use edge_images::{Image, images};
use std::alloc::Global;
use std::marker::Brand;
use std::sync::ledger::Blank;
use std::test::Fail;

/// `SMALL` with an output more before that of 67, from which on the new numbers are one larger.
const ONE_MORE: &str =
    "choose at:4 test getchar { line at:5 eval putchar 66 } { line at:6 eval putchar 68 line at:8 eval putchar 67 } line at:7 return:int 0";

/// `if (getchar()) putchar(66); else putchar(66); putchar(67); return 0;`
const JOINED: &str =
    "choose at:4 test getchar { line at:5 eval putchar 66 } { line at:6 eval putchar 66 } line at:8 eval putchar 67 line at:7 return:int 0";

/// The same with what follows the first output copied behind it, and an output of 68 behind the other one.
const COPIED: &str =
    "choose at:4 test getchar { line at:5 eval putchar 66 line at:8 eval putchar 67 line at:7 return:int 0 } { line at:6 eval putchar 66 } line at:8 eval putchar 67 line at:9 eval putchar 68 line at:7 return:int 0";

/// The images of the edges of a program in another one.
fn images_of(alloc: Global, old: &str, new: &str) -> Result<Vec<Image>, Fail> {
    let old = graph_of(alloc, old)?;
    let new = graph_of(alloc, new)?;
    let walked = walk_counted::<Brand>(alloc, &old, &new, Blank::new(1))?;
    Ok(images(alloc, &old, &new, &walked)?)
}

/// Two programs, and the images of the edges of the first one in the other.
const IMAGES: &[(&str, &str, &[Image])] = &[
    // An edge has itself as its image where nothing changed.
    (
        SMALL,
        SMALL,
        &[
            Image::One(0),
            Image::One(1),
            Image::One(2),
            Image::One(3),
            Image::One(4),
            Image::One(5),
            Image::One(6),
            Image::One(7),
        ],
    ),
    // An edge that no pair reaches has no image.
    (
        SMALL,
        ONE_MORE,
        &[
            Image::One(0),
            Image::One(1),
            Image::One(2),
            Image::One(3),
            Image::One(4),
            Image::One(5),
            Image::Absent,
            Image::One(8),
        ],
    ),
    // An edge whose point is reached with two has several.
    (
        JOINED,
        COPIED,
        &[
            Image::One(0),
            Image::One(1),
            Image::One(2),
            Image::One(3),
            Image::One(4),
            Image::One(5),
            Image::One(8),
            Image::Many,
            Image::One(7),
        ],
    ),
];

#[test]
fn an_edge_has_the_images_that_its_point_is_reached_with(rt: HostRuntime) -> Result<(), Fail> {
    for &(old, new, want) in IMAGES {
        let found = images_of(rt.alloc(), old, new)?;
        assert!(rt; found.as_slice() == want, "{new}");
    }
    Ok(())
}
