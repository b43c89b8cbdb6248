//! Why a text is no history of a source, as it is told.
ghost use Rattle.std.specs.Prelude.{◌≡◌, ◌++◌, OnOk};
ghost use Rattle.command_refusals.specs.Causes.{history_cause, history_text};

use crate::words::{push_digests, push_rule};
use line_text::push_decimal;
use std::alloc::AllocError;
use test_history::HistoryError;

/// Why a text is no history of a source.
#[derive(Clone, Copy, Debug, PartialEq, Eq)]
pub enum HistoryCause {
    /// It has more than 134,217,728 bytes.
    TooLong,
    /// It is of another version of the format.
    Version(u32),
    /// A line, counted from 1, breaks a rule.
    Line(u32, u8),
    /// The digest at its end, and the other one of what stands before.
    Sum([u8; 32], [u8; 32]),
    /// The digest of the source that it tells, and the other one of the source at hand.
    Source([u8; 32], [u8; 32]),
    /// The number of edges that it tells, and the other one of the source's program.
    Edges(u32, u32),
}

/// What is told of an error of a history; nothing of want of memory.
pub fn history_cause(error: HistoryError) -> Option<HistoryCause>
    ensures { result ≡ history_cause error }
{
    match error {
        HistoryError::TooLong(_) => Some(HistoryCause::TooLong),
        HistoryError::Version(number) => Some(HistoryCause::Version(number)),
        HistoryError::Malformed(line, rule) => Some(HistoryCause::Line(line, rule)),
        HistoryError::Sum(found, computed) => Some(HistoryCause::Sum(found, computed)),
        HistoryError::Foreign(found, computed) => Some(HistoryCause::Source(found, computed)),
        HistoryError::EdgeCount(found, real) => Some(HistoryCause::Edges(found, real)),
        HistoryError::Memory => None,
    }
}

/// Appends what is told of a history.
pub(crate) fn push_history(line: &mut Vec<u8>, cause: HistoryCause) -> Result<(), AllocError>
    ensures { OnOk result (line.new.items ≡ line.old.items ++ history_text cause) }
{
    match cause {
        HistoryCause::TooLong => line.extend_from_slice(b" too long"),
        HistoryCause::Version(number) => {
            line.extend_from_slice(b" version ")?;
            push_decimal(line, u64::from(number))
        }
        HistoryCause::Line(place, rule) => push_rule(line, place, b"H", rule),
        HistoryCause::Sum(found, computed) => push_digests(line, b" sum ", &found, &computed),
        HistoryCause::Source(found, computed) => push_digests(line, b" source ", &found, &computed),
        HistoryCause::Edges(found, real) => {
            line.extend_from_slice(b" edges ")?;
            push_decimal(line, u64::from(found))?;
            line.push(b' ')?;
            push_decimal(line, u64::from(real))
        }
    }
}
