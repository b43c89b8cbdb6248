//! A program that counts lines, words and bytes: its graph.
use crate::walks::sizes;
use sample_sources::WORD_COUNTER;
use std::test::Fail;

// `#start` has 3 points, `kind_of` 8, `sum` 8 and `main` 21: the entry and the exit of each, and one for each expression,
// initialiser, test, `switch`, `return` and call. Each but the 4 exits has a way out, each of the 5 tests one more, and each of
// the 2 switches 3 more, since it has three cases and a default.
#[test]
fn its_points_and_edges_are_counted(rt: HostRuntime) -> Result<(), Fail> {
    assert_eq!(rt; sizes(rt.alloc(), WORD_COUNTER)?, (47, 40));
    Ok(())
}
