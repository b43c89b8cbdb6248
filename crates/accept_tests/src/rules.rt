//! The first rule that a source breaks, by the rules of C11 and of the language, with the place and the text there.
use crate::sources::{answer, error_of, is_row};
use csub_accept::SourceError;
use std::alloc::Global;
use std::process::Abort;
use std::test::Fail;

#[cfg(test)]
mod calls;
#[cfg(test)]
mod expressions;
#[cfg(test)]
mod names;
#[cfg(test)]
mod order;
#[cfg(test)]
mod sizes;
#[cfg(test)]
mod statements;
#[cfg(test)]
mod unit;

/// What stands before a function whose lines are tested.
const DECLARED: &str = "struct point { int x; int row[2]; }; enum shade { SIX = 6 }; int total; \
    int add(int a, int b) { return a + b; } void work(void) { } int sum(int a[]) { return a[0]; } ";

/// The rule that a source breaks, with the place in bytes and the text there; 0, 0 and no text where it breaks none, which a source
/// that passes a limit doesn't.
fn broken<'a>(alloc: Global, source: &'a str) -> Result<(u8, usize, &'a str), Fail> {
    match error_of(alloc, source) {
        None | Some(SourceError::Limit(_, _)) => Ok((0, 0, "")),
        Some(SourceError::Meaning(rule, at)) => {
            let (start, end) = (at.start as usize, at.end as usize);
            Ok((rule, start, source.get(start..end).ok_or("past the end")?))
        }
        Some(_) => Err(answer(alloc, source)?.as_str().into()),
    }
}

/// What is found of a source that consists of these parts: the rule that it breaks and the text there, which has to stand behind the
/// first two; 0 where it breaks none.
fn found(
    rt: &impl Abort,
    alloc: Global,
    (before, head, rest, behind): (&str, &str, &str, &str),
) -> Result<String, Fail> {
    let source = format!(in alloc; "{before}{head}{rest}{behind}")?;
    let (rule, place, text) = broken(alloc, source.as_str())?;
    let wanted = before.len().wrapping_add(head.len());
    assert!(rt;
        rule == 0 || place == wanted,
        "M{rule} at {place} of {source}"
    );
    Ok(format!(in alloc; "{rule} {text}")?)
}

/// A row is a part of a source, which stands between these two, an arrow, and the rule that the source breaks, which is told at the
/// `@`, with the text there; or 0 where it breaks none.
fn row_agrees(
    rt: &impl Abort,
    alloc: Global,
    (before, behind): (&str, &str),
    row: &str,
) -> Result<(), Fail> {
    let (part, expected) = row.split_once(" => ").ok_or("no row")?;
    let (head, rest) = part.split_once('@').unwrap_or((part, ""));
    let found = found(rt, alloc, (before, head, rest, behind))?;
    assert!(rt; found.as_str().trim_end() == expected, "{row} gave {found}");
    Ok(())
}

/// Each row of a table, which has one in a line, agrees.
fn rows_agree(
    rt: &impl Abort,
    alloc: Global,
    parts: (&str, &str),
    table: &str,
) -> Result<(), Fail> {
    for line in table.lines() {
        if is_row(line) {
            row_agrees(rt, alloc, parts, line)?;
        }
    }
    Ok(())
}

/// Each table has the head of a function, and rows of its lines.
pub fn lines_agree(rt: &impl Abort, alloc: Global, tables: &[(&str, &str)]) -> Result<(), Fail> {
    for (head, rows) in tables {
        let before = format!(in alloc; "{DECLARED}{head} {{ ")?;
        let parts = (before.as_str(), " } int main(void) { return 0; }");
        rows_agree(rt, alloc, parts, rows)?;
    }
    Ok(())
}

/// The rows are sources without this end.
pub fn sources_agree(rt: &impl Abort, alloc: Global, end: &str, rows: &str) -> Result<(), Fail> {
    rows_agree(rt, alloc, ("", end), rows)
}
