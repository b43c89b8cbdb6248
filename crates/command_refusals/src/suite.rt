//! Why a text is no suite, as it is told.
ghost use Rattle.std.specs.Prelude.{◌≡◌, ◌++◌, OnOk};
ghost use Rattle.command_refusals.specs.Causes.{suite_cause, suite_text};

use crate::words::push_rule;
use line_text::push_decimal;
use std::alloc::AllocError;
use test_suite::SuiteError;

/// Why a text is no suite.
#[derive(Clone, Copy, Debug, PartialEq, Eq)]
pub enum SuiteCause {
    /// It has more than 16,777,216 bytes.
    TooLong,
    /// A line, counted from 1, breaks a rule.
    Line(u32, u8),
    /// It has so many tests, more than 8,192.
    Tests(u32),
    /// A line has the name of an earlier one.
    Twice(u32),
}

/// What is told of an error of a suite; nothing of want of memory.
pub fn suite_cause(error: SuiteError) -> Option<SuiteCause>
    ensures { result ≡ suite_cause error }
{
    match error {
        SuiteError::TooLong(_) => Some(SuiteCause::TooLong),
        SuiteError::Line(line, rule) => Some(SuiteCause::Line(line, rule)),
        SuiteError::TooMany(count) => Some(SuiteCause::Tests(count)),
        SuiteError::Twice(line) => Some(SuiteCause::Twice(line)),
        SuiteError::Memory => None,
    }
}

/// Appends what is told of a suite.
pub(crate) fn push_suite(line: &mut Vec<u8>, cause: SuiteCause) -> Result<(), AllocError>
    ensures { OnOk result (line.new.items ≡ line.old.items ++ suite_text cause) }
{
    match cause {
        SuiteCause::TooLong => line.extend_from_slice(b" too long"),
        SuiteCause::Line(place, rule) => push_rule(line, place, b"S", rule),
        SuiteCause::Tests(count) => {
            line.extend_from_slice(b" tests ")?;
            push_decimal(line, u64::from(count))
        }
        SuiteCause::Twice(place) => {
            line.extend_from_slice(b" line ")?;
            push_decimal(line, u64::from(place))?;
            line.extend_from_slice(b" twice")
        }
    }
}
