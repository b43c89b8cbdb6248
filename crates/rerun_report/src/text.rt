//! The text on tests that ran again.
ghost use Rattle.std.specs.Prelude.{◌≡◌, ◌↔◌, ◌++◌, ◌∷◌, [], OnOk, IfOk, length, count_by};
ghost use Rattle.line_text.specs.Lines.{text_of_lines};
ghost use Rattle.test_select.specs.Selection.{is_selected};
ghost use Rattle.rerun_report.specs.Reruns.{differ_count, AllSame};
ghost use Rattle.rerun_report.specs.RerunTexts.{rerun_lines, count_line, rerun_text};

use crate::line::{push_left_line, push_result_line};
use line_text::push_decimal;
use std::alloc::{AllocError, Global};
use test_history::{Entry, History};
use test_select::Choice;

/// The text on tests that ran again, and how many of them differ.
#[derive(Drop)]
pub struct RerunText {
    /// The text.
    pub bytes: Vec<u8>,
    /// How many tests differ.
    pub differs: usize,
}

/// The text on the tests of a history after the selected ones ran again: for each test in order the line `left NAME`, `same NAME`,
/// or `differs NAME` followed by each part that differs, as ` output H to H`, ` status S to S` and ` turns T to T`, the entry's
/// first; and then the line `differ K of N`, that K of all N tests differ. `choices` has one choice a test, and `results` the
/// results of the selected tests, in order; of a result its output, its status and its number of turns are read.
///
/// It goes once over the entries and the results: the time is in proportion to the text and to the outputs that are compared. An
/// `Err` is want of memory.
pub fn rerun_text(
    alloc: Global,
    history: &History,
    choices: &[Choice],
    results: &[Entry],
) -> Result<RerunText, AllocError>
    requires choices { length choices.now ≡ length history.now.entries }
    requires results { length results.now ≡ count_by is_selected choices.now }
    ensures text { IfOk result (λ text. text.bytes.items ≡ rerun_text history.now.entries choices.now results.now) }
    ensures differs { IfOk result (λ text. text.differs ≡ differ_count history.now.entries choices.now results.now) }
    // none differs exactly where each test that ran again behaves as its entry tells
    ensures same { IfOk result (λ text. (text.differs ≡ 0) ↔ AllSame history.now.entries choices.now results.now) }
{
    let mut bytes = Vec::new(alloc);
    let differs = push_lines(&mut bytes, history.entries(), choices, results)?;
    push_count_line(&mut bytes, differs, choices.len())?;
    Ok(RerunText { bytes, differs })
}

/// Appends the line of each test, and gives how many differ.
fn push_lines(
    text: &mut Vec<u8>,
    entries: &[Entry],
    choices: &[Choice],
    results: &[Entry],
) -> Result<usize, AllocError>
    requires choices { length choices.now ≡ length entries.now }
    requires results { length results.now ≡ count_by is_selected choices.now }
    ensures text { OnOk result
        (text.new.items ≡ text.old.items ++ text_of_lines (rerun_lines entries.now choices.now results.now)) }
    ensures differs { IfOk result (λ count. count ≡ differ_count entries.now choices.now results.now) }
{
    let mut differs = 0;
    let mut next = 0;
    for (place, entry) in entries.iter().enumerate() {
        match choices[place] {
            Choice::Left => push_left_line(text, entry)?,
            Choice::Selected(_) => {
                if push_result_line(text, entry, &results[next])? {
                    differs += 1;
                }
                next += 1;
            }
        }
    }
    Ok(differs)
}

fn push_count_line(text: &mut Vec<u8>, differ: usize, all: usize) -> Result<(), AllocError>
    ensures { OnOk result (text.new.items ≡ text.old.items ++ count_line differ all ++ 10 ∷ []) }
{
    text.extend_from_slice(b"differ ")?;
    push_decimal(text, differ as u64)?;
    text.extend_from_slice(b" of ")?;
    push_decimal(text, all as u64)?;
    text.push(b'\n')?;
    Ok(())
}
