//! A pair of programs with tests.
ghost use Rattle.std.specs.Prelude.{◌≡◌, ◌≤◌, IfOk};
ghost use Rattle.test_suite.specs.Suites.{IsSuite};
ghost use Rattle.dv_gen.specs.Pairs.{old_source, new_source, tests_of};

use crate::draws::Draws;
use crate::functions::draw_functions;
use crate::source::write_source;
use crate::suite::draw_tests;
use std::alloc::{AllocError, Global};
use test_suite::Test;

/// An old source, a new one with one number changed, and tests.
#[derive(Drop)]
pub struct Made {
    /// The source on which the tests are recorded.
    pub old: Vec<u8>,
    /// The source in which one function adds one more.
    pub new: Vec<u8>,
    /// The tests, four for each function.
    pub tests: Vec<Test>,
}

/// Makes the pair of a seed with `size` functions and four tests for each. The same seed and size give the same
/// pair. It takes time and memory in proportion to `size`. An `Err` is want of memory.
pub fn make_pair(alloc: Global, seed: u32, size: u32) -> Result<Made, AllocError>
    requires seed { seed ≤ 65535 }
    requires some { 1 ≤ size }
    requires few { size ≤ 400 }
    ensures old { IfOk result (λ made. made.old.items ≡ old_source seed size) }
    ensures new { IfOk result (λ made. made.new.items ≡ new_source seed size) }
    ensures tests { IfOk result (λ made. made.tests.items ≡ tests_of seed size) }
    // they can be written as a suite
    ensures within { IfOk result (λ made. IsSuite made.tests.items) }
{
    let mut draws = Draws::new(seed);
    let functions = draw_functions(alloc, &mut draws, size)?;
    let changed = draws.draw(size) as usize;
    let tests = draw_tests(alloc, &mut draws, size)?;
    let old = write_source(alloc, &functions, None)?;
    let new = write_source(alloc, &functions, Some(changed))?;
    Ok(Made { old, new, tests })
}
