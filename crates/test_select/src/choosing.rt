//! Choosing by the dangerous edges.
ghost use Rattle.std.specs.Prelude.{◌≡◌, IfOk, length};
ghost use Rattle.std.specs.List.{AllZip};
ghost use Rattle.test_history.specs.Histories.{HaveRows};
ghost use Rattle.test_select.specs.Selection.{Chooses};

use crate::choice::Choice;
use edge_trace::EdgeRow;
use std::alloc::{AllocError, Global};
use test_history::{Entry, History};

/// For each test of the history, in order, the least dangerous edge that it crossed, or that there is
/// none. `danger` holds the dangerous edges among the history's edges. An error means that no memory
/// was left.
pub fn select(alloc: Global, history: &History, danger: &EdgeRow) -> Result<Vec<Choice>, AllocError>
    requires { length danger.now ≡ history.now.edges }
    ensures { IfOk result (λ choices. AllZip (λ entry choice. Chooses entry.crossed danger.now choice)
        history.now.entries choices.items) }
{
    choose_each(alloc, history.entries(), danger)
}

fn choose_each(
    alloc: Global,
    entries: &[Entry],
    danger: &EdgeRow,
) -> Result<Vec<Choice>, AllocError>
    requires { HaveRows (length danger.now) entries.now }
    ensures { IfOk result (λ choices. AllZip (λ entry choice. Chooses entry.crossed danger.now choice)
        entries.now choices.items) }
{
    let mut choices = Vec::with_capacity(alloc, entries.len())?;
    for entry in entries {
        choices.push(choose(entry, danger))?;
    }
    Ok(choices)
}

fn choose(entry: &Entry, danger: &EdgeRow) -> Choice
    requires { length entry.now.crossed ≡ length danger.now }
    ensures { Chooses entry.now.crossed danger.now result }
{
    match entry.crossed().meets(danger) {
        Some(edge) => Choice::Selected(edge),
        None => Choice::Left,
    }
}
