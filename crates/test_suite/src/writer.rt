//! Writing a suite.
ghost use Rattle.std.specs.Prelude.{◌≡◌, ◌++◌, ◌∷◌, [], OnOk, IfOk};
ghost use Rattle.test_suite.specs.Suites.{IsSuite, suite_text, test_line};

use crate::test::Test;
use line_text::{push_bytes_or_dash, push_decimal};
use std::alloc::{AllocError, Global};

/// The text of a suite of these tests. An `Err` is want of memory.
pub fn write_suite(alloc: Global, tests: &[Test]) -> Result<Vec<u8>, AllocError>
    requires { IsSuite tests.now }
    ensures { IfOk result (λ text. text.items ≡ suite_text tests.now) }
{
    let mut text = Vec::from_slice(alloc, b"dejavu suite 1\n")?;
    for test in tests {
        push_test(&mut text, test)?;
    }
    Ok(text)
}

fn push_test(text: &mut Vec<u8>, test: &Test) -> Result<(), AllocError>
    ensures { OnOk result (text.new.items ≡ text.old.items ++ test_line test.now ++ 10 ∷ []) }
{
    text.extend_from_slice(b"test ")?;
    text.extend_from_slice(test.name().bytes())?;
    text.push(b' ')?;
    push_decimal(text, u64::from(test.budget()))?;
    text.push(b' ')?;
    push_bytes_or_dash(text, test.input())?;
    text.push(b'\n')?;
    Ok(())
}
