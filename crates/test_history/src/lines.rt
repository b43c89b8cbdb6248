//! The lines of a history.
ghost use Rattle.std.specs.Prelude.{◌≡◌, ◌++◌, ◌∷◌, [], OnOk, codes};
ghost use Rattle.line_text.specs.Words.{line_of_words};
ghost use Rattle.test_history.specs.HistoryTexts.{trap_name, status_words};

use csub_semantics::{Status, Trap};
use line_text::{push_decimal, push_number_line, push_text_line};
use std::alloc::AllocError;

/// The word for a trap.
pub fn name_of_trap(trap: Trap) -> &'static [u8]
    ensures { result.now ≡ trap_name trap }
{
    match trap {
        Trap::Overflow => b"overflow",
        Trap::Divide => b"divide",
        Trap::Shift => b"shift",
        Trap::Bounds => b"bounds",
        Trap::Unset => b"unset",
        Trap::Flood => b"flood",
        Trap::Depth => b"depth",
        Trap::Missing => b"missing",
    }
}

/// Appends `exit N`, `trap NAME` or `turns`, the words of a status without a newline. An `Err` is want of memory.
pub fn push_status_words(text: &mut Vec<u8>, status: Status) -> Result<(), AllocError>
    ensures { OnOk result (text.new.items ≡ text.old.items ++ line_of_words (status_words status)) }
{
    match status {
        Status::Exit(number) => {
            text.extend_from_slice(b"exit ")?;
            push_decimal(text, u64::from(number))
        }
        Status::Trap(trap) => {
            text.extend_from_slice(b"trap ")?;
            text.extend_from_slice(name_of_trap(trap))
        }
        Status::Turns => text.extend_from_slice(b"turns"),
    }
}

/// Appends the line `status exit N`, `status trap NAME` or `status turns`.
pub fn push_status_line(text: &mut Vec<u8>, status: Status) -> Result<(), AllocError>
    ensures { OnOk result
        (text.new.items ≡ text.old.items ++ line_of_words (codes "status" ∷ status_words status) ++ 10 ∷ []) }
{
    match status {
        Status::Exit(number) => push_number_line(text, b"status exit", u64::from(number)),
        Status::Trap(trap) => push_text_line(text, b"status trap", name_of_trap(trap)),
        Status::Turns => text.extend_from_slice(b"status turns\n"),
    }
}
