//! The walk of two graphs.
ghost use Rattle.std.specs.Prelude.{◌≡◌, ◌<◌, IfOk};
ghost use Rattle.csub_semantics.specs.Syntax.{ProgramTree};
ghost use Rattle.flow_graph.specs.Graph.{IsGraphOf};
ghost use Rattle.call_walk.specs.Walks.{IsWalk};

use call_walk::WalkResult;
use edge_label::Steps;
use flow_graph::Graph;
use std::alloc::{AllocError, Global};
use std::sync::ledger::{Blank, Ledger};

/// The walk of two graphs, whose questions are counted in the ledger of `blank`.
pub fn walk_counted<L: Ledger>(
    alloc: Global,
    old: &Graph,
    new: &Graph,
    blank: Blank,
) -> Result<WalkResult, AllocError>
    requires name { blank.name ≡ L.name }
    requires parts { blank.parts ≡ L.parts }
    requires some { 0 < blank.parts }
    ensures { (P P' : ProgramTree) → IsGraphOf old.now P → IsGraphOf new.now P' → IfOk result (IsWalk P P') }
{
    let mut steps: Steps<L> = Steps::new(blank);
    call_walk::walk(alloc, old, new, &mut steps)
}
