//! The lines of a word and a value, read off the front of a text.
ghost use Rattle.std.specs.Prelude.{◌≡◌, ◌<◌, ◌++◌, ◌∷◌, ℕ, List, MatchOption, bytes_eq, codes, find, option_map};
ghost use Rattle.csub_semantics.specs.declared.status.Status.{Status};
ghost use Rattle.line_text.specs.Words.{line_of_words};
ghost use Rattle.test_suite.specs.Tests.{IsTestName};
ghost use Rattle.line_text.specs.Values.{value_line};
ghost use Rattle.test_history.specs.Histories.{IsByteStatus};
ghost use Rattle.test_history.specs.HistoryTexts.{status_words, trap_name};
ghost use Rattle.line_text.specs.Lines.{HasLine};
ghost use Rattle.test_history.specs.Rules.{HasName};

use crate::lines::name_of_trap;
use csub_semantics::{Status, Trap};
use line_text::{Value, cut_value, read_decimal};
use test_suite::is_test_name;

/// Reads the line of a test's name.
pub fn read_name(text: &[u8]) -> Option<Value<'_>>
    ensures { MatchOption result
        ((name : List ℕ) → ¬ HasName text.now 1 name)
        (λ name. IsTestName name.bytes.now
        × (text.now ≡ value_line (codes "test") name.bytes.now ++ 10 ∷ name.rest.now)) }
{
    let name = cut_value(text, b"test")?;
    if is_test_name(name.bytes) {
        Some(name)
    } else {
        None
    }
}

/// Reads the line of how a run ended.
pub fn read_status(text: &[u8]) -> Option<(Status, &[u8])>
    ensures { MatchOption result
        ((status : Status) → IsByteStatus status → ¬ HasLine text.now 1 (line_of_words (codes "status" ∷ status_words status)))
        (λ read. IsByteStatus read.0
        × (text.now ≡ line_of_words (codes "status" ∷ status_words read.0) ++ 10 ∷ read.1.now)) }
{
    let value = cut_value(text, b"status")?;
    let status = status_of(value.bytes)?;
    Some((status, value.rest))
}

// How a run ended, of the words for it.
fn status_of(words: &[u8]) -> Option<Status>
    ensures { MatchOption result
        ((status : Status) → IsByteStatus status → ¬ (words.now ≡ line_of_words (status_words status)))
        (λ status. IsByteStatus status × (words.now ≡ line_of_words (status_words status))) }
{
    if words == b"turns".as_slice() {
        return Some(Status::Turns);
    }
    if let Some(number) = words.strip_prefix(b"exit ") {
        return Some(Status::Exit(read_decimal(number, 255)? as u8));
    }
    let trap = trap_of(words.strip_prefix(b"trap ")?)?;
    Some(Status::Trap(trap))
}

/// Every trap.
const TRAPS: [Trap; 8] = [
    Trap::Overflow,
    Trap::Divide,
    Trap::Shift,
    Trap::Bounds,
    Trap::Unset,
    Trap::Flood,
    Trap::Depth,
    Trap::Missing,
];

// The first of these traps that has this name.
fn find_trap<'t>(traps: &'t [Trap], name: &[u8]) -> Option<&'t Trap>
    ensures { option_map (λ trap. trap.now) result ≡ find (λ trap. bytes_eq (trap_name trap) name.now) traps.now }
{
    traps.iter().find(|trap| name_of_trap(**trap) == name)
}

// The trap of this name.
fn trap_of(name: &[u8]) -> Option<Trap>
    ensures { MatchOption result
        ((trap : Trap) → ¬ (name.now ≡ trap_name trap))
        (λ trap. name.now ≡ trap_name trap) }
{
    find_trap(&TRAPS, name).copied()
}
