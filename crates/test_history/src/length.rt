//! How long the text of a history is, found without writing it.
ghost use Rattle.std.specs.Prelude.{◌≡◌, ◌≤◌, ◌+◌, ◌*◌, ◌∷◌, length, codes, All};
ghost use Rattle.std.specs.List.{flat_map};
ghost use Rattle.csub_core.specs.Valid.{most_edges};
ghost use Rattle.line_text.specs.Lines.{text_of_lines};
ghost use Rattle.line_text.specs.Words.{line_of_words};
ghost use Rattle.test_suite.specs.Suites.{most_tests};
ghost use Rattle.test_history.specs.Histories.{IsEntryWithin, IsHistoryWithin};
ghost use Rattle.test_history.specs.HistoryTexts.{history_text, entry_lines, status_words, crossed_line};

use crate::entry::Entry;
use crate::history::History;
use crate::lines::name_of_trap;
use crate::version::Version;
use csub_semantics::Status;
use edge_trace::EdgeRow;
use line_text::{bytes_or_dash_length, decimal_length};

// `dejavu history 3`, `source`, `edges`, `tests` and `end`, with what stands between words and lines.
const FRAME_BYTES: u64 = 17 + 8 + 7 + 7 + 5;

// The digits of the sum.
const SUM_BYTES: u64 = 64;

// `test`, `budget`, `input`, `turns` and `output`, each with a space, and the newlines of seven lines.
const ENTRY_BYTES: u64 = 5 + 7 + 6 + 6 + 7 + 7;

/// The number of bytes of a history's text.
pub fn text_length(history: &History) -> u64
    requires { IsHistoryWithin history.now }
    ensures { result ≡ length (history_text history.now) }
{
    let entries = history.entries();
    FRAME_BYTES
        + SUM_BYTES
        + 2 * history.digest().len() as u64
        + decimal_length(u64::from(history.edges()))
        + decimal_length(entries.len() as u64)
        + entries_length(entries)
}

fn entries_length(entries: &[Entry]) -> u64
    requires few { length entries.now ≤ most_tests }
    requires within { All IsEntryWithin entries.now }
    requires rows { All (λ entry. length entry.crossed ≤ most_edges) entries.now }
    ensures exact { result ≡ length (text_of_lines (flat_map (entry_lines Version.Third) entries.now)) }
    ensures small { result ≤ 800000000 }
{
    let mut length = 0;
    for entry in entries {
        length += entry_length(entry);
    }
    length
}

fn entry_length(entry: &Entry) -> u64
    requires within { IsEntryWithin entry.now }
    requires edges { length entry.now.crossed ≤ most_edges }
    ensures exact { result ≡ length (text_of_lines (entry_lines Version.Third entry.now)) }
    ensures small { result ≤ 80000 }
{
    ENTRY_BYTES
        + entry.test().name().bytes().len() as u64
        + decimal_length(u64::from(entry.test().budget()))
        + bytes_or_dash_length(entry.test().input())
        + status_length(entry.status())
        + decimal_length(u64::from(entry.turns()))
        + bytes_or_dash_length(entry.output())
        + crossed_length(entry.crossed())
}

// The line of a status.
fn status_length(status: Status) -> u64
    ensures exact { result ≡ length (line_of_words (codes "status" ∷ status_words status)) }
    ensures small { result ≤ 32 }
{
    match status {
        Status::Exit(number) => 12 + decimal_length(u64::from(number)),
        Status::Trap(trap) => 12 + name_of_trap(trap).len() as u64,
        Status::Turns => 12,
    }
}

// The line of the crossed edges.
fn crossed_length(crossed: &EdgeRow) -> u64
    requires { length crossed.now ≤ most_edges }
    ensures exact { result ≡ length (crossed_line Version.Third crossed.now) }
    ensures small { result ≤ 3000 }
{
    match crossed.edges() {
        0 => 9,
        edges => 8 + 2 * u64::from(edges.div_ceil(8)),
    }
}
