//! The temporaries of parts: one for each call with a result.
ghost use Rattle.std.specs.Prelude.{◌≡◌, ◌+◌, IfOk, map, max};
ghost use Rattle.std.specs.Option.{option_map};
ghost use Rattle.csub_semantics.specs.Labels.{label_tree};
ghost use Rattle.csub_semantics.specs.Syntax.{call_stage, own_stage, part_tree, stmt_tree, stmts_of};
ghost use Rattle.csub_resolution.specs.Programs.{most_temps, part_temps, parts_of, parts_of_all, some_count};

use csub_semantics::{Label, RCall, RPart, RStmt, Span};
use csub_types::IntKind;
use std::alloc::AllocError;

/// A sum. An `Err` is a sum that is too large.
fn sum(a: u32, b: u32) -> Result<u32, AllocError>
    ensures { IfOk result (λ sum. sum ≡ a + b) }
{
    match a.checked_add(b) {
        None => Err(AllocError),
        Some(sum) => Ok(sum),
    }
}

/// The temporaries of a call that gives this kind, or nothing.
fn some_count(result_kind: Option<IntKind>) -> u32
    ensures { result ≡ some_count result_kind }
{
    match result_kind {
        None => 0,
        Some(_) => 1,
    }
}

/// The temporaries of the calls of a part at a place.
fn calls_temps(calls: &[RCall], span: Span) -> Result<u32, AllocError>
    ensures { IfOk result (λ count. count ≡ part_temps (map (call_stage span) calls.now)) }
{
    let mut count = 0;
    for call in calls {
        count = sum(count, some_count(call.label.result))?;
    }
    Ok(count)
}

/// The temporaries of a point of a part at a place.
fn own_temps(label: &Option<Label>, span: Span) -> u32
    ensures { result ≡ part_temps (own_stage span (option_map label_tree label.now)) }
{
    match label {
        Some(Label::Call(call)) => some_count(call.result),
        _ => 0,
    }
}

/// How many temporaries a part has. An `Err` is more than 4,294,967,295.
pub fn part_temps(part: &RPart) -> Result<u32, AllocError>
    ensures { IfOk result (λ count. count ≡ part_temps (part_tree part.now)) }
{
    let calls = calls_temps(part.calls.as_slice(), part.span)?;
    sum(calls, own_temps(&part.main, part.span))
}

/// The most temporaries of one of these parts.
fn parts_temps(parts: &[RPart]) -> Result<u32, AllocError>
    ensures { IfOk result (λ count. count ≡ most_temps (map part_tree parts.now)) }
{
    let mut most: u32 = 0;
    for part in parts {
        most = most.max(part_temps(part)?);
    }
    Ok(most)
}

/// The most temporaries of a `for`'s parts, where its body's have these.
fn for_temps(first: &[RPart], test: &RPart, third: &[RPart], body: u32) -> Result<u32, AllocError>
    ensures { IfOk result (λ count. count ≡ max (most_temps (map part_tree first.now)) (max (part_temps (part_tree test.now)) (max (most_temps (map part_tree third.now)) body))) }
{
    let start = parts_temps(first)?;
    let tested = part_temps(test)?;
    let step = parts_temps(third)?;
    Ok(start.max(tested.max(step.max(body))))
}

/// The most temporaries of one part of a statement. An `Err` is more than 4,294,967,295.
#[cycle(line_temps)]
pub fn line_temps(s: &RStmt) -> Result<u32, AllocError>
    ensures { IfOk result (λ count. count ≡ most_temps (parts_of (stmt_tree s.now))) }
{
    match s {
        RStmt::Parts(row) => parts_temps(row.as_slice()),
        RStmt::Block(lines) => lines_temps(lines.as_slice()),
        RStmt::If(test, then, other) => {
            let tested = part_temps(test)?;
            let first = line_temps(then)?;
            match other {
                None => Ok(tested.max(first)),
                Some(other) => Ok(tested.max(first.max(line_temps(other)?))),
            }
        }
        RStmt::While(test, body) => Ok(part_temps(test)?.max(line_temps(body)?)),
        RStmt::Do(body, test) => Ok(line_temps(body)?.max(part_temps(test)?)),
        RStmt::For(first, test, third, body) => {
            let inner = line_temps(body)?;
            for_temps(first.as_slice(), test, third.as_slice(), inner)
        }
        RStmt::Switch(part, lines) => Ok(part_temps(part)?.max(lines_temps(lines.as_slice())?)),
        RStmt::Case(_) | RStmt::Default | RStmt::Break | RStmt::Continue => Ok(0),
        RStmt::Goto(_, part) => part_temps(part),
        RStmt::Mark(_, inner) => line_temps(inner),
    }
}

/// The same of lines.
#[cycle(line_temps)]
pub fn lines_temps(lines: &[RStmt]) -> Result<u32, AllocError>
    ensures { IfOk result (λ count. count ≡ most_temps (parts_of_all (stmts_of (map stmt_tree lines.now)))) }
{
    let mut most: u32 = 0;
    for line in lines {
        most = most.max(line_temps(line)?);
    }
    Ok(most)
}
