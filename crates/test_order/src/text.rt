//! The text of an order.
ghost use Rattle.std.specs.Prelude.{◌≡◌, ◌<◌, ◌++◌, ◌∷◌, [], OnOk, IfOk, length, All};
ghost use Rattle.line_text.specs.Lines.{text_of_lines};
ghost use Rattle.test_order.specs.OrderTexts.{place_line, place_lines, count_line, order_text};

use crate::placed::Placed;
use line_text::push_decimal;
use std::alloc::{AllocError, Global};
use test_history::{Entry, History};

/// The text of these places, each of a test of the history: for each place in order the line `NAME adds GAIN`, and then
/// the line `ordered K of N`, that K of all N tests have a place. An `Err` is want of memory.
pub fn order_text(
    alloc: Global,
    history: &History,
    placed: &[Placed],
) -> Result<Vec<u8>, AllocError>
    requires { All (λ place. place.at < length history.now.entries) placed.now }
    ensures { IfOk result (λ text. text.items ≡ order_text history.now.entries placed.now) }
{
    let mut text = Vec::new(alloc);
    push_place_lines(&mut text, history.entries(), placed)?;
    push_count_line(&mut text, history.entries(), placed)?;
    Ok(text)
}

fn push_place_lines(
    text: &mut Vec<u8>,
    entries: &[Entry],
    placed: &[Placed],
) -> Result<(), AllocError>
    requires { All (λ place. place.at < length entries.now) placed.now }
    ensures { OnOk result
        (text.new.items ≡ text.old.items ++ text_of_lines (place_lines entries.now placed.now)) }
{
    for place in placed {
        push_place_line(text, entries, *place)?;
    }
    Ok(())
}

fn push_place_line(text: &mut Vec<u8>, entries: &[Entry], place: Placed) -> Result<(), AllocError>
    requires { place.at < length entries.now }
    ensures { OnOk result (text.new.items ≡ text.old.items ++ place_line entries.now place ++ 10 ∷ []) }
{
    text.extend_from_slice(entries[place.at as usize].test().name().bytes())?;
    text.extend_from_slice(b" adds ")?;
    push_decimal(text, u64::from(place.gain))?;
    text.push(b'\n')?;
    Ok(())
}

fn push_count_line(
    text: &mut Vec<u8>,
    entries: &[Entry],
    placed: &[Placed],
) -> Result<(), AllocError>
    ensures { OnOk result (text.new.items ≡ text.old.items ++ count_line entries.now placed.now ++ 10 ∷ []) }
{
    text.extend_from_slice(b"ordered ")?;
    push_decimal(text, placed.len() as u64)?;
    text.extend_from_slice(b" of ")?;
    push_decimal(text, entries.len() as u64)?;
    text.push(b'\n')?;
    Ok(())
}
