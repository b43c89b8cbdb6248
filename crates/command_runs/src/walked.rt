//! The text of the walk of two versions.
ghost use Rattle.std.specs.Prelude.{◌≤◌, IfOk, length};
ghost use Rattle.csub_semantics.specs.Syntax.{program_tree};
ghost use Rattle.explain_report.specs.Walks.{IsWalkText};

use command_files::{Versions, build_graphs, walk_of};
use explain_report::walk_text;
use std::alloc::{AllocError, Global};

/// The text of the walk of two versions. An `Err` is want of memory.
pub fn report(alloc: Global, versions: &Versions) -> Result<Vec<u8>, AllocError>
    requires { length versions.now.source.items ≤ 1048576 }
    ensures { IfOk result (λ text. IsWalkText versions.now.source.items (program_tree versions.now.old) (program_tree versions.now.new) text.items) }
{
    let graphs = build_graphs(alloc, versions)?;
    let walked = walk_of(alloc, &graphs.old, &graphs.new)?;
    walk_text(alloc, &walked, &graphs.old, &versions.source)
}
