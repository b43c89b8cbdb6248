//! What is called at the points of a walk's old graph.
ghost use Rattle.std.specs.Prelude.{◌≡◌, ◌<◌, IfOk, IfSome, MatchOption};
ghost use Rattle.csub_semantics.specs.Syntax.{ProgramTree};
ghost use Rattle.flow_graph.specs.Graph.{IsGraphOf, point_count};
ghost use Rattle.dual_walk.specs.Callees.{AreCallees, AreNumbersOf, Defines, IsCalleeAt, IsFunction};
ghost use Rattle.dual_walk.specs.Prepared.{IsPrepared};

use crate::ask::Pair;
use crate::both::Both;
use csub_semantics::{Label, Text};
use flow_graph::Graph;
use std::alloc::{AllocError, Global};

/// A function that is called.
#[derive(Clone, Copy)]
pub struct Callee {
    /// Its number in the old graph.
    pub function: u32,
    /// Its entries.
    pub entry: Pair,
    /// Its exits.
    pub exit: Pair,
}

/// The function that is called at a point of the old graph; `None` where nothing is called.
pub fn callee_at(both: &Both<'_>, point: u32) -> Option<Callee>
    requires prepared { IsPrepared both.now }
    requires point { point < point_count both.now.old.now }
    ensures { IsCalleeAt both.now.old.now both.now.new.now point result }
{
    both.callees[point as usize]
}

/// By each point of the old graph the function that is called there, or `None`. An `Err` is want of memory. A callee is
/// looked for by its name in both graphs, by a logarithm of their functions.
pub fn list_callees(
    alloc: Global,
    old: &Graph,
    new: &Graph,
) -> Result<Vec<Option<Callee>>, AllocError>
    ensures { IfOk result (λ callees. AreCallees old.now new.now callees.items) }
{
    let mut callees = Vec::new(alloc);
    for point in 0..old.points() {
        callees.push(find_callee(old, new, point))?;
    }
    Ok(callees)
}

/// The function that is called at a point of the old graph, by the label that stands there.
fn find_callee(old: &Graph, new: &Graph, point: u32) -> Option<Callee>
    requires { point < point_count old.now }
    ensures { IsCalleeAt old.now new.now point result }
{
    match old.label_at(point) {
        Label::Call(call) => callee_named(old, new, &call.callee),
        _ => None,
    }
}

/// The numbers of the function with a name; `None` only where one program has none.
fn callee_named(old: &Graph, new: &Graph, name: &Text) -> Option<Callee>
    ensures numbers { (P P' : ProgramTree) → IsGraphOf old.now P → IsGraphOf new.now P' → Defines P name.now → Defines P' name.now →
        MatchOption result ⊥ (IsFunction P P' name.now) }
    ensures within { IfSome result (AreNumbersOf old.now new.now) }
{
    let function = old.find(name)?;
    let other = new.find(name)?;
    Some(Callee {
        function,
        entry: Pair {
            old: old.start_of(function),
            new: new.start_of(other),
        },
        exit: Pair {
            old: old.exit_of(function),
            new: new.exit_of(other),
        },
    })
}
