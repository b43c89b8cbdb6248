//! What several refusals tell in the same words.
ghost use Rattle.std.specs.Prelude.{◌≡◌, ◌++◌, OnOk};
ghost use Rattle.command_refusals.specs.Causes.{digests_text, rule_text};

use line_text::{push_decimal, push_hex};
use std::alloc::AllocError;

/// Appends a word with its spaces, and two digests with a space between them.
pub(crate) fn push_digests(
    line: &mut Vec<u8>,
    word: &[u8],
    found: &[u8; 32],
    computed: &[u8; 32],
) -> Result<(), AllocError>
    ensures { OnOk result (line.new.items ≡ line.old.items ++ digests_text word.now found.now computed.now) }
{
    line.extend_from_slice(word)?;
    push_hex(line, found)?;
    line.push(b' ')?;
    push_hex(line, computed)
}

/// Appends which line breaks which rule, named by the letter of its format and its number.
pub(crate) fn push_rule(
    line: &mut Vec<u8>,
    place: u32,
    letter: &[u8],
    rule: u8,
) -> Result<(), AllocError>
    ensures { OnOk result (line.new.items ≡ line.old.items ++ rule_text place letter.now rule) }
{
    line.extend_from_slice(b" line ")?;
    push_decimal(line, u64::from(place))?;
    line.extend_from_slice(b" rule ")?;
    line.extend_from_slice(letter)?;
    push_decimal(line, u64::from(rule))
}
