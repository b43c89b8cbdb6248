//! Reading a suite.
ghost use Rattle.std.specs.Prelude.{◌≡◌, ◌≤◌, ◌++◌, ◌∷◌, List, length, IfOk, IfErr, MatchResult};
ghost use Rattle.test_suite.specs.Causes.{HasCause, HasNoCause, IsOnlyCause};
ghost use Rattle.test_suite.specs.Faults.{IsFaultOf, refusal_at as refusal_at_lem};
ghost use Rattle.test_suite.specs.Rules.{IsFirstFault};
ghost use Rattle.test_suite.specs.Suites.{IsSuite, SaysTests, first_line, most_bytes};
ghost use Rattle.test_suite.specs.Tests.{TestParts};

use crate::error::SuiteError;
use crate::line::{LineFault, read_test};
use crate::repeat::first_repeat;
use crate::test::Test;
use line_text::cut_line;
use std::alloc::Global;

const MOST_BYTES: usize = 16_777_216;

const MOST_TESTS: usize = 8_192;

/// Reads a suite: exactly the texts that `write_suite` writes, as their tests. Every other text is
/// refused with the first cause that holds, in the order of `SuiteError`'s variants; want of memory may
/// come at any text. It goes over the text once.
pub fn read_suite(alloc: Global, bytes: &[u8]) -> Result<Vec<Test>, SuiteError>
    ensures suite { IfOk result (λ tests. IsSuite tests.items) }
    ensures text { IfOk result (λ tests. SaysTests bytes.now tests.items) }
    ensures cause { IfErr result (HasCause bytes.now) }
    // each refusal comes exactly where it has a cause
    ensures exact { MatchResult result (λ tests. HasNoCause bytes.now) (IsOnlyCause bytes.now) }
    // what a suite can hold is read back
    ensures back { (tests : List TestParts) → IsSuite tests → SaysTests bytes.now tests
        → MatchResult result (λ found. found.items ≡ tests) (λ error. error ≡ SuiteError.Memory) }
{
    if bytes.len() > MOST_BYTES {
        return Err(SuiteError::TooLong(bytes.len()));
    }
    let tests = read_lines(alloc, bytes)?;
    if tests.len() > MOST_TESTS {
        return Err(SuiteError::TooMany(tests.len() as u32));
    }
    match first_repeat(alloc, &tests)? {
        None => Ok(tests),
        Some(place) => Err(SuiteError::Twice(place as u32 + 2)),
    }
}

// The tests of all lines, if no line breaks a rule.
fn read_lines(alloc: Global, bytes: &[u8]) -> Result<Vec<Test>, SuiteError>
    requires { length bytes.now ≤ most_bytes }
    ensures text { IfOk result (λ tests. SaysTests bytes.now tests.items) }
    ensures count { IfOk result (λ tests. length tests.items ≤ length bytes.now) }
    ensures fault { IfErr result (IsFaultOf bytes.now) }
{
    let mut rest = match read_first_line(bytes) {
        Ok(rest) => rest,
        Err(rule) => return Err(SuiteError::Line(1, rule)),
    };
    let mut tests = Vec::new(alloc);
    while let Some(line) = cut_line(rest) {
        match read_test(alloc, &line) {
            Ok(test) => tests.push(test).map_err(|_| SuiteError::Memory)?,
            Err(fault) => return Err(refusal_at(fault, tests.len() as u32 + 2)),
        }
        rest = line.rest;
    }
    Ok(tests)
}

fn refusal_at(fault: LineFault, line: u32) -> SuiteError
    ensures { result ≡ refusal_at_lem fault line }
{
    match fault {
        LineFault::Rule(rule) => SuiteError::Line(line, rule),
        LineFault::Memory => SuiteError::Memory,
    }
}

// What follows line 1, or the least rule that it breaks.
fn read_first_line(bytes: &[u8]) -> Result<&[u8], u8>
    ensures rest { IfOk result (λ rest. bytes.now ≡ first_line ++ 10 ∷ rest.now) }
    ensures fault { IfErr result (IsFirstFault bytes.now 1) }
{
    let Some(line) = cut_line(bytes) else {
        return Err(1);
    };
    if line.bytes != b"dejavu suite 1".as_slice() {
        Err(1)
    } else if !line.is_ended {
        Err(2)
    } else {
        Ok(line.rest)
    }
}
