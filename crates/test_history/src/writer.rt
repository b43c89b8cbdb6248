//! Writing a history.
ghost use Rattle.std.specs.Prelude.{◌≡◌, ◌≤◌, ◌++◌, ◌∷◌, [], OnOk, IfOk, IfErr, vec_len};
ghost use Rattle.std.specs.List.{flat_map};
ghost use Rattle.line_text.specs.Lines.{text_of_lines};
ghost use Rattle.test_history.specs.Causes.{HasTextCause};
ghost use Rattle.test_history.specs.Histories.{IsHistoryWithin};
ghost use Rattle.test_history.specs.HistoryTexts.{history_text, first_lines, entry_lines, end_line, most_history_bytes};

use crate::bits::bytes_of_row;
use crate::digest::digest_of;
use crate::entry::Entry;
use crate::error::HistoryTextError;
use crate::history::History;
use crate::length::text_length;
use crate::lines::push_status_line;
use crate::version::Version;
use line_text::{push_bytes_line, push_digest_line, push_number_line, push_text_line};
use std::alloc::{AllocError, Global};

const MOST_BYTES: u64 = 134_217_728;

/// The text of a history, in version 3. Its length is found before any memory is taken; `TooLong` has it
/// where the text would have more than 134,217,728 bytes.
pub fn write_history(alloc: Global, history: &History) -> Result<Vec<u8>, HistoryTextError>
    requires { IsHistoryWithin history.now }
    ensures text { IfOk result (λ text. text.items ≡ history_text history.now) }
    ensures short { IfOk result (λ text. vec_len text ≤ most_history_bytes) }
    ensures cause { IfErr result (λ error. HasTextCause history.now error) }
{
    let length = text_length(history);
    if length > MOST_BYTES {
        return Err(HistoryTextError::TooLong(length));
    }
    let mut text = Vec::with_capacity(alloc, length as usize)?;
    push_first_lines(&mut text, history)?;
    push_entries(alloc, &mut text, history.entries())?;
    push_end(&mut text)?;
    Ok(text)
}

fn push_first_lines(text: &mut Vec<u8>, history: &History) -> Result<(), AllocError>
    ensures { OnOk result (text.new.items ≡ text.old.items ++ text_of_lines (first_lines Version.Third history.now)) }
{
    push_number_line(text, b"dejavu history", Version::Third.number())?;
    push_digest_line(text, b"source", history.digest())?;
    push_number_line(text, b"edges", u64::from(history.edges()))?;
    push_number_line(text, b"tests", history.entries().len() as u64)?;
    Ok(())
}

fn push_entries(alloc: Global, text: &mut Vec<u8>, entries: &[Entry]) -> Result<(), AllocError>
    ensures { OnOk result (text.new.items ≡ text.old.items ++ text_of_lines (flat_map (entry_lines Version.Third) entries.now)) }
{
    for entry in entries {
        push_entry(alloc, text, entry)?;
    }
    Ok(())
}

fn push_entry(alloc: Global, text: &mut Vec<u8>, entry: &Entry) -> Result<(), AllocError>
    ensures { OnOk result (text.new.items ≡ text.old.items ++ text_of_lines (entry_lines Version.Third entry.now)) }
{
    let test = entry.test();
    push_text_line(text, b"test", test.name().bytes())?;
    push_number_line(text, b"budget", u64::from(test.budget()))?;
    push_bytes_line(text, b"input", test.input())?;
    push_status_line(text, entry.status())?;
    push_number_line(text, b"turns", u64::from(entry.turns()))?;
    push_bytes_line(text, b"output", entry.output())?;
    push_bytes_line(text, b"crossed", &bytes_of_row(alloc, entry.crossed())?)?;
    Ok(())
}

fn push_end(text: &mut Vec<u8>) -> Result<(), AllocError>
    ensures { OnOk result (text.new.items ≡ text.old.items ++ text_of_lines (end_line text.old.items ∷ [])) }
{
    let sum = digest_of(text);
    push_digest_line(text, b"end", &sum)
}
