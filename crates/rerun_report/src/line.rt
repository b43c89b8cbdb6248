//! The line of one test.
ghost use Rattle.std.specs.Prelude.{◌≡◌, ◌++◌, ◌∷◌, [], OnOk, IfOk};
ghost use Rattle.rerun_report.specs.Reruns.{was_left, ran_again, behaves_as, differs};
ghost use Rattle.rerun_report.specs.RerunTexts.{outcome_line, parts_text, name_line};

use crate::part::{push_output, push_status, push_turns, same_status};
use std::alloc::AllocError;
use test_history::Entry;

/// Appends the line of a test that was left.
pub fn push_left_line(text: &mut Vec<u8>, entry: &Entry) -> Result<(), AllocError>
    ensures { OnOk result (text.new.items ≡ text.old.items ++ outcome_line (was_left entry.now) ++ 10 ∷ []) }
{
    push_name(text, b"left", entry)?;
    text.push(b'\n')?;
    Ok(())
}

/// Appends the line of a test that ran again, and gives whether it differs.
pub fn push_result_line(
    text: &mut Vec<u8>,
    entry: &Entry,
    rerun: &Entry,
) -> Result<bool, AllocError>
    ensures text { OnOk result
        (text.new.items ≡ text.old.items ++ outcome_line (ran_again entry.now rerun.now) ++ 10 ∷ []) }
    ensures differs { IfOk result (λ is_other. is_other ≡ differs (ran_again entry.now rerun.now)) }
{
    let is_same = behaves_as(entry, rerun);
    if is_same {
        push_name(text, b"same", entry)?;
    } else {
        push_name(text, b"differs", entry)?;
        push_parts(text, entry, rerun)?;
    }
    text.push(b'\n')?;
    Ok(!is_same)
}

/// Appends a word and the name of a test.
fn push_name(text: &mut Vec<u8>, word: &[u8], entry: &Entry) -> Result<(), AllocError>
    ensures { OnOk result (text.new.items ≡ text.old.items ++ name_line word.now entry.now) }
{
    text.extend_from_slice(word)?;
    text.push(b' ')?;
    text.extend_from_slice(entry.test().name().bytes())
}

/// Whether a run behaves as an entry tells.
fn behaves_as(entry: &Entry, rerun: &Entry) -> bool
    ensures { result ≡ behaves_as entry.now rerun.now }
{
    entry.output() == rerun.output()
        && same_status(entry.status(), rerun.status())
        && entry.turns() == rerun.turns()
}

/// Appends each part of an entry that is not the same in the run.
fn push_parts(text: &mut Vec<u8>, entry: &Entry, rerun: &Entry) -> Result<(), AllocError>
    ensures { OnOk result (text.new.items ≡ text.old.items ++ parts_text entry.now rerun.now) }
{
    push_output(text, entry.output(), rerun.output())?;
    push_status(text, entry.status(), rerun.status())?;
    push_turns(text, entry.turns(), rerun.turns())
}
