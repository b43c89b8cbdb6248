//! The parts of a run's behaviour: its output, its status and its number of turns.
ghost use Rattle.std.specs.Prelude.{◌≡◌, ◌++◌, OnOk};
ghost use Rattle.rerun_report.specs.Reruns.{status_eq};
ghost use Rattle.rerun_report.specs.RerunTexts.{output_text, status_text, turns_text};

use csub_semantics::Status;
use line_text::{push_bytes_or_dash, push_decimal};
use std::alloc::AllocError;
use test_history::push_status_words;

/// Whether two statuses are equal.
pub fn same_status(before: Status, after: Status) -> bool
    ensures { result ≡ status_eq before after }
{
    before == after
}

/// Appends ` output H to H` where the outputs differ.
pub fn push_output(text: &mut Vec<u8>, before: &[u8], after: &[u8]) -> Result<(), AllocError>
    ensures { OnOk result (text.new.items ≡ text.old.items ++ output_text before.now after.now) }
{
    if before == after {
        return Ok(());
    }
    text.extend_from_slice(b" output ")?;
    push_bytes_or_dash(text, before)?;
    text.extend_from_slice(b" to ")?;
    push_bytes_or_dash(text, after)
}

/// Appends ` status S to S` where the statuses differ.
pub fn push_status(text: &mut Vec<u8>, before: Status, after: Status) -> Result<(), AllocError>
    ensures { OnOk result (text.new.items ≡ text.old.items ++ status_text before after) }
{
    if same_status(before, after) {
        return Ok(());
    }
    text.extend_from_slice(b" status ")?;
    push_status_words(text, before)?;
    text.extend_from_slice(b" to ")?;
    push_status_words(text, after)
}

/// Appends ` turns T to T` where the numbers of turns differ.
pub fn push_turns(text: &mut Vec<u8>, before: u32, after: u32) -> Result<(), AllocError>
    ensures { OnOk result (text.new.items ≡ text.old.items ++ turns_text before after) }
{
    if before == after {
        return Ok(());
    }
    text.extend_from_slice(b" turns ")?;
    push_decimal(text, u64::from(before))?;
    text.extend_from_slice(b" to ")?;
    push_decimal(text, u64::from(after))
}
