//! Names that stand twice.
ghost use Rattle.std.specs.Prelude.{◌≢◌, IfOk, MatchOption, AllPairs};
ghost use Rattle.test_suite.specs.Causes.{IsFirstRepeat};
ghost use Rattle.test_suite.specs.Suites.{names_of};

use crate::test::Test;
use indexmap::IndexSet;
use std::alloc::{AllocError, Global};

/// The place of the first test whose name an earlier one has, counted from 0.
pub fn first_repeat(alloc: Global, tests: &[Test]) -> Result<Option<usize>, AllocError>
    ensures { IfOk result (λ found. MatchOption found
        (AllPairs (λ name other. name ≢ other) (names_of tests.now))
        (IsFirstRepeat (names_of tests.now))) }
{
    let mut names: IndexSet<&[u8]> = IndexSet::new(alloc);
    for (place, test) in tests.iter().enumerate() {
        if !names.insert(test.name().bytes())? {
            return Ok(Some(place));
        }
    }
    Ok(None)
}
