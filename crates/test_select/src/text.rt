//! The text of a selection.
ghost use Rattle.std.specs.Prelude.{◌≡◌, ◌++◌, ◌∷◌, [], OnOk, IfOk, length, count_by};
ghost use Rattle.line_text.specs.Lines.{text_of_lines};
ghost use Rattle.test_select.specs.Selection.{is_selected};
ghost use Rattle.test_select.specs.SelectTexts.{choice_line, choice_lines, count_line, select_text};

use crate::choice::Choice;
use line_text::push_decimal;
use std::alloc::{AllocError, Global};
use test_history::{Entry, History};

/// The text of these choices, one for each test of the history: for each test in order the line
/// `run NAME edge E` or `left NAME`, and then the line `selected K of N`, that K of all N tests are
/// selected. An error means that no memory was left.
pub fn select_text(
    alloc: Global,
    history: &History,
    choices: &[Choice],
) -> Result<Vec<u8>, AllocError>
    requires { length choices.now ≡ length history.now.entries }
    ensures { IfOk result (λ text. text.items ≡ select_text history.now.entries choices.now) }
{
    let mut text = Vec::new(alloc);
    push_choice_lines(&mut text, history.entries(), choices)?;
    push_count_line(&mut text, choices)?;
    Ok(text)
}

fn push_choice_lines(
    text: &mut Vec<u8>,
    entries: &[Entry],
    choices: &[Choice],
) -> Result<(), AllocError>
    requires { length choices.now ≡ length entries.now }
    ensures { OnOk result
        (text.new.items ≡ text.old.items ++ text_of_lines (choice_lines entries.now choices.now)) }
{
    for (place, entry) in entries.iter().enumerate() {
        push_choice_line(text, entry, choices[place])?;
    }
    Ok(())
}

/// Appends the line of a test and of the choice for it. An error means that no memory was left.
pub fn push_choice_line(text: &mut Vec<u8>, entry: &Entry, choice: Choice) -> Result<(), AllocError>
    ensures { OnOk result (text.new.items ≡ text.old.items ++ choice_line entry.now choice ++ 10 ∷ []) }
{
    match choice {
        Choice::Selected(edge) => {
            text.extend_from_slice(b"run ")?;
            text.extend_from_slice(entry.test().name().bytes())?;
            text.extend_from_slice(b" edge ")?;
            push_decimal(text, u64::from(edge))?;
        }
        Choice::Left => {
            text.extend_from_slice(b"left ")?;
            text.extend_from_slice(entry.test().name().bytes())?;
        }
    }
    text.push(b'\n')?;
    Ok(())
}

fn push_count_line(text: &mut Vec<u8>, choices: &[Choice]) -> Result<(), AllocError>
    ensures { OnOk result (text.new.items ≡ text.old.items ++ count_line choices.now ++ 10 ∷ []) }
{
    text.extend_from_slice(b"selected ")?;
    push_decimal(text, count_selected(choices) as u64)?;
    text.extend_from_slice(b" of ")?;
    push_decimal(text, choices.len() as u64)?;
    text.push(b'\n')?;
    Ok(())
}

/// How many of the choices select their test.
pub fn count_selected(choices: &[Choice]) -> usize
    ensures { result ≡ count_by is_selected choices.now }
{
    choices.iter().filter(|choice| choice.is_selected()).count()
}
