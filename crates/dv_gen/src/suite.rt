//! The tests of a pair.
ghost use Rattle.std.specs.Prelude.{◌≡◌, ◌≤◌, ◌+◌, ◌*◌, ℕ, IfOk, OnOk};
ghost use Rattle.dv_gen.specs.Draws.{next_state, drawn, state_after};
ghost use Rattle.dv_gen.specs.Pairs.{test_with, tests_of};

use crate::draws::Draws;
use csub_text::Text;
use line_text::push_decimal;
use std::alloc::{AllocError, Global};
use test_suite::Test;

const BUDGET: u32 = 10_000;

/// Draws the tests of a pair of so many functions, behind its other draws. An `Err` is want of memory.
pub fn draw_tests(alloc: Global, draws: &mut Draws, size: u32) -> Result<Vec<Test>, AllocError>
    requires { size ≤ 400 }
    ensures { (seed : ℕ) → draws.old.state ≡ state_after seed (3 * size + 1) →
        IfOk result (λ tests. tests.items ≡ tests_of seed size) }
{
    let mut tests = Vec::new(alloc);
    for number in 0..4 * size {
        tests.push(draw_test(alloc, draws, number)?)?;
    }
    Ok(tests)
}

fn draw_test(alloc: Global, draws: &mut Draws, number: u32) -> Result<Test, AllocError>
    ensures test { IfOk result (λ test. test ≡ test_with number (drawn draws.old.state 0 256)) }
    ensures state { OnOk result (draws.new.state ≡ next_state draws.old.state) }
{
    let mut name = Vec::from_slice(alloc, b"t")?;
    push_decimal(&mut name, u64::from(number))?;
    let mut input = Vec::new(alloc);
    input.push(draws.draw(256) as u8)?;
    Ok(Test::new(Text::new(alloc, &name)?, BUDGET, input))
}
