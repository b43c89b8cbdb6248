//! Where each `goto` of a function leads, by a table of its labels.
ghost use Rattle.std.specs.Prelude.{◌≡◌, ◌≤◌, ◌-◌, IfOk, OnOk, map, reverse, Some, if◌then◌else◌, bytes_eq};
ghost use Rattle.csub_objects.specs.Types.{Name};
ghost use Rattle.csub_semantics.specs.Syntax.{stmt_tree, stmts_of};
ghost use Rattle.csub_semantics.specs.Successors.{target};
ghost use Rattle.flow_graph.specs.Numbers.{all_to as all_to', count_list, marks_list, numbered_mark};
ghost use Rattle.flow_graph.specs.Jumps.{entry_of, jump_by};

use crate::marks::{Labelled, mark_list};
use crate::onward::all_to;
use csub_semantics::{RStmt, Text};
use indexmap::IndexMap;
use std::alloc::{AllocError, Global};

/// Where the `goto`s of a function lead.
#[derive(Drop)]
pub struct Jumps {
    /// The number of the point at which each labelled statement begins, by its label's name.
    pub table: IndexMap<Vec<u8>, u32>,
    /// The function's exit, to which a `goto` of any other name leads.
    pub exit: u32,
}

/// The point to which a `goto` of this name leads.
pub fn jump(jumps: &Jumps, name: &Text) -> u32
    ensures { result ≡ jump_by jumps.now name.now }
{
    match jumps.table.get(name.bytes()) {
        Some(to) => *to,
        None => jumps.exit,
    }
}

/// Enters a labelled statement, in place of what was entered by its name.
fn put(
    alloc: Global,
    table: &mut IndexMap<Vec<u8>, u32>,
    labelled: &Labelled,
) -> Result<(), AllocError>
    ensures { OnOk result ((name : Name) → entry_of table.new name ≡ (if bytes_eq labelled.now.name name then Some labelled.now.to else entry_of table.old name)) }
{
    let key = labelled.name.bytes().to_vec(alloc)?;
    table.insert(key, labelled.to)?;
    Ok(())
}

/// The table of labelled statements; the later in the list counts where the same name stands twice.
fn table_of(alloc: Global, marks: &[Labelled], exit: u32) -> Result<Jumps, AllocError>
    ensures { IfOk result (λ jumps. (name : Name) → jump_by jumps name ≡ target (reverse (map numbered_mark marks.now)) exit name) }
{
    let mut table = IndexMap::new(alloc);
    for labelled in marks {
        put(alloc, &mut table, labelled)?;
    }
    Ok(Jumps { table, exit })
}

/// Where the `goto`s of a function with these lines lead, whose exit has the number `exit`: to the first labelled
/// statement of the name, and to the exit where there is none.
pub fn jumps_of(alloc: Global, body: &[RStmt], exit: u32) -> Result<Jumps, AllocError>
    requires { count_list (stmts_of (map stmt_tree body.now)) ≤ exit }
    ensures { IfOk result (λ jumps. (name : Name) → jump_by jumps name ≡ target (marks_list (stmts_of (map stmt_tree body.now)) (exit - count_list (stmts_of (map stmt_tree body.now))) (all_to' exit)) exit name) }
{
    let mut marks = Vec::new(alloc);
    mark_list(body, exit, all_to(exit), &mut marks)?;
    let jumps = table_of(alloc, marks.as_slice(), exit)?;
    Ok(jumps)
}
