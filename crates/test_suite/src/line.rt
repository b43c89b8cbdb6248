//! The line of one test.
ghost use Rattle.std.specs.Prelude.{◌≡◌, ◌<◌, ℕ, List, Some, IfOk, IfErr, MatchOption, IsTrue};
ghost use Rattle.hex.specs.Hex.{IsBytes};
ghost use Rattle.line_text.specs.Lines.{line_with};
ghost use Rattle.test_suite.specs.Faults.{IsLineFault};
ghost use Rattle.test_suite.specs.Rules.{HasWords};
ghost use Rattle.test_suite.specs.Suites.{test_line};
ghost use Rattle.test_suite.specs.Tests.{IsWithin};

use crate::name::is_test_name;
use crate::test::Test;
use csub_text::Text;
use line_text::{Line, cut_word, read_bytes_or_dash, read_decimal};
use std::alloc::{AllocError, Global};
use thiserror::Error;

const MOST_BUDGET: u64 = 10_000_000;

const MOST_INPUT: usize = 16_384;

/// Why a line gives no test.
#[derive(Clone, Copy, Debug, Error)]
pub enum LineFault {
    /// The least rule that the line breaks, 2 to 7.
    #[error("the line breaks rule {0}")]
    Rule(u8),
    /// Memory ran out.
    #[error("out of memory")]
    Memory,
}

impl From<AllocError> for LineFault {
    ghost use Rattle.std.specs.Prelude.{◌≡◌};
    ghost use Rattle.test_suite.specs.declared.line.LineFault.TheVariants.{Memory};

    ghost from_gives = { λ _ error. error ≡ Memory };

    fn from(_error: AllocError) -> LineFault {
        LineFault::Memory
    }
}

/// The test of a line other than the first, or the least rule that the line breaks.
pub fn read_test(alloc: Global, line: &Line<'_>) -> Result<Test, LineFault>
    ensures ended { IfOk result (λ test. IsTrue line.now.is_ended) }
    ensures line { IfOk result (λ test. line.now.bytes.now ≡ test_line test) }
    ensures within { IfOk result IsWithin }
    ensures bytes { IfOk result (λ test. IsBytes test.input) }
    ensures fault { IfErr result (IsLineFault (line_with line.now.bytes.now line.now.is_ended)) }
{
    if !line.is_ended {
        return Err(LineFault::Rule(2));
    }
    let Some(words) = words_of_test(line.bytes) else {
        return Err(LineFault::Rule(3));
    };
    if !is_test_name(words.name) {
        return Err(LineFault::Rule(4));
    }
    let Some(budget) = read_decimal(words.budget, MOST_BUDGET) else {
        return Err(LineFault::Rule(5));
    };
    let Some(input) = read_bytes_or_dash(alloc, words.input)? else {
        return Err(LineFault::Rule(6));
    };
    let test = Test::new(Text::new(alloc, words.name)?, budget as u32, input);
    if test.input().len() > MOST_INPUT {
        return Err(LineFault::Rule(7));
    }
    Ok(test)
}

// The words of a test's line after `test`.
#[derive(Clone, Copy)]
struct TestWords<'a> {
    name: &'a [u8],
    budget: &'a [u8],
    input: &'a [u8],
}

// The words of a line that has four, of which the first is `test`.
fn words_of_test(line: &[u8]) -> Option<TestWords<'_>>
    ensures { MatchOption result
        ((name budget input : List ℕ) → ¬ HasWords line.now name budget input)
        (λ words. HasWords line.now words.name.now words.budget.now words.input.now) }
{
    let first = cut_word(line)?;
    if first.bytes != b"test".as_slice() {
        return None;
    }
    let name = cut_word(first.rest?)?;
    let budget = cut_word(name.rest?)?;
    let input = cut_word(budget.rest?)?;
    if input.rest.is_some() {
        return None;
    }
    Some(TestWords {
        name: name.bytes,
        budget: budget.bytes,
        input: input.bytes,
    })
}
