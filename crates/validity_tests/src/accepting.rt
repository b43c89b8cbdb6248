//! Tables of programs, each said to be valid or not.
use program_words::accepts;
use std::alloc::Global;
use std::process::Abort;
use std::test::Fail;

/// Each row of a table is a valid program or none, as it says.
///
/// A row is a line with words, which stand in place of the two dots of the line `with:` before it. It is valid behind a line
/// `valid:`, and not behind a line `invalid:`. A line that begins with `#` says what the rows below it show.
pub fn rows_agree(rt: &impl Abort, alloc: Global, table: &str) -> Result<(), Fail> {
    let mut around = ("", "");
    let mut is_valid = false;
    for line in table.lines() {
        if let Some(with) = line.strip_prefix("with: ") {
            around = with.split_once("..").ok_or("no dots")?;
        } else if line == "valid:" || line == "invalid:" {
            is_valid = line == "valid:";
        } else if !line.is_empty() && !line.starts_with('#') {
            row_agrees(rt, alloc, around, line, is_valid)?;
        }
    }
    Ok(())
}

/// A row between what stands around it is a valid program or none, as is said.
fn row_agrees(
    rt: &impl Abort,
    alloc: Global,
    (before, behind): (&str, &str),
    row: &str,
    is_valid: bool,
) -> Result<(), Fail> {
    let text = format!(in alloc; "{before}{row}{behind}")?;
    assert!(rt; accepts(alloc, text.as_str())? == is_valid, "{text}");
    Ok(())
}
