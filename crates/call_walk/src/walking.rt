//! The walk of two programs through calls.
ghost use Rattle.std.specs.Prelude.{◌≡◌, ◌<◌, ◌≤◌, ◌+◌, ◌*◌, [], Some, length, slice_get, IfOk, OnOk};
ghost use Rattle.csub_objects.specs.Types.{Name};
ghost use Rattle.csub_semantics.specs.Points.{PointTree, entry};
ghost use Rattle.csub_semantics.specs.Flows.{flow_of, start_name};
ghost use Rattle.csub_semantics.specs.Syntax.{ProgramTree};
ghost use Rattle.csub_semantics.specs.Books.{CallsAt};
ghost use Rattle.flow_graph.specs.Graph.{IsGraphOf, edge_count, point_count};
ghost use Rattle.dual_walk.specs.declared.fact.Fact.{Fact};
ghost use Rattle.dual_walk.specs.Held.{AreAt, IsHeld, Extends};
ghost use Rattle.dual_walk.specs.Prepared.{IsPrepared};
ghost use Rattle.dual_walk.specs.Rest.{facts_of, asked_of, IsAtRest};
ghost use Rattle.call_walk.specs.Walks.{IsWalk};
ghost use Rattle.call_walk.specs.Danger.{HoldsAll};

use crate::answer::WalkResult;
use crate::danger::dangerous;
use dual_walk::{Both, Fact, Walk, Why, callee_at, list_callees, number_labels};
use edge_label::{LabelBook, Steps};
use flow_graph::Graph;
use std::alloc::{AllocError, Global};
use std::sync::ledger::Ledger;

/// Adds the pair of the points 0, the entries of `#start`, and what follows from it; nothing where a graph has no points,
/// and so is that of no program.
fn start<L: Ledger>(
    both: &Both<'_>,
    walk: &mut Walk,
    steps: &mut Steps<L>,
) -> Result<(), AllocError>
    requires prepared { IsPrepared both.now }
    requires rests { IsAtRest both.now.old.now both.now.new.now walk.old }
    requires none { facts_of walk.old ≡ [] }
    ensures rests { OnOk result (IsAtRest both.now.old.now both.now.new.now walk.new) }
    ensures held { OnOk result ((P P' : ProgramTree) → IsGraphOf both.now.old.now P → IsGraphOf both.now.new.now P' → IsHeld P P' (facts_of walk.new) start_name entry entry) }
    ensures counted { steps.new + asked_of walk.old ≡ steps.old + asked_of walk.new }
    ensures few { asked_of walk.new ≤ edge_count both.now.old.now * point_count both.now.new.now }
{
    if both.old.points() == 0 || both.new.points() == 0 {
        return Ok(());
    }
    let fact = Fact {
        function: both.old.function_at(0),
        old: 0,
        new: 0,
        why: Why::Start,
    };
    walk.add(both, fact, steps)
}

/// Adds the entries of what is called at the fact with a place, and what follows from them.
fn enter<L: Ledger>(
    both: &Both<'_>,
    walk: &mut Walk,
    at: u32,
    steps: &mut Steps<L>,
) -> Result<(), AllocError>
    requires prepared { IsPrepared both.now }
    requires rests { IsAtRest both.now.old.now both.now.new.now walk.old }
    requires at { at < length (facts_of walk.old) }
    ensures rests { OnOk result (IsAtRest both.now.old.now both.now.new.now walk.new) }
    ensures grows { Extends (facts_of walk.old) (facts_of walk.new) }
    ensures entered { OnOk result ((P P' : ProgramTree) (c : Fact) (f g : Name) (p p' : PointTree) → IsGraphOf both.now.old.now P → IsGraphOf both.now.new.now P' →
        slice_get (facts_of walk.old) at ≡ Some c → AreAt P P' c.old c.new f p p' → CallsAt (flow_of P) f p g → IsHeld P P' (facts_of walk.new) g entry entry) }
    ensures counted { steps.new + asked_of walk.old ≡ steps.old + asked_of walk.new }
    ensures few { asked_of walk.new ≤ edge_count both.now.old.now * point_count both.now.new.now }
{
    let from = walk.pairs()[at as usize];
    let Some(callee) = callee_at(both, from.old) else {
        return Ok(());
    };
    let fact = Fact {
        function: callee.function,
        old: callee.entry.old,
        new: callee.entry.new,
        why: Why::Call(at),
    };
    walk.add(both, fact, steps)
}

/// Adds every reached pair: the start, and the callee of each pair at a call.
fn reach<L: Ledger>(
    both: &Both<'_>,
    walk: &mut Walk,
    steps: &mut Steps<L>,
) -> Result<(), AllocError>
    requires prepared { IsPrepared both.now }
    requires rests { IsAtRest both.now.old.now both.now.new.now walk.old }
    requires none { facts_of walk.old ≡ [] }
    ensures rests { OnOk result (IsAtRest both.now.old.now both.now.new.now walk.new) }
    ensures all { OnOk result (HoldsAll both.now.old.now both.now.new.now (facts_of walk.new)) }
    ensures counted { steps.new + asked_of walk.old ≡ steps.old + asked_of walk.new }
    ensures few { asked_of walk.new ≤ edge_count both.now.old.now * point_count both.now.new.now }
{
    start(both, walk, steps)?;
    let mut at = 0;
    while at < walk.pairs().len() {
        enter(both, walk, at as u32, steps)?;
        at += 1;
    }
    Ok(())
}

/// The walk of two graphs whose labels have their numbers, and whose callees are found; see [`walk`].
fn walk_both<L: Ledger>(
    alloc: Global,
    both: &Both<'_>,
    steps: &mut Steps<L>,
) -> Result<WalkResult, AllocError>
    requires prepared { IsPrepared both.now }
    ensures is_walk { (P P' : ProgramTree) → IsGraphOf both.now.old.now P → IsGraphOf both.now.new.now P' → IfOk result (IsWalk P P') }
    ensures counted { steps.new ≤ steps.old + edge_count both.now.old.now * point_count both.now.new.now }
{
    let mut pairs = Walk::new(alloc, both.old, both.new)?;
    reach(both, &mut pairs, steps)?;
    let danger = dangerous(alloc, both, &pairs)?;
    let facts = pairs.into_facts();
    Ok(WalkResult { facts, danger })
}

/// The walk of two graphs, whose labels get their numbers in a book; see [`walk`].
fn walk_by<L: Ledger>(
    alloc: Global,
    old: &Graph,
    new: &Graph,
    book: &mut LabelBook,
    steps: &mut Steps<L>,
) -> Result<WalkResult, AllocError>
    ensures is_walk { (P P' : ProgramTree) → IsGraphOf old.now P → IsGraphOf new.now P' → IfOk result (IsWalk P P') }
    ensures counted { steps.new ≤ steps.old + edge_count old.now * point_count new.now }
{
    let old_labels = number_labels(alloc, old, book)?;
    let new_labels = number_labels(alloc, new, book)?;
    let callees = list_callees(alloc, old, new)?;
    let both = Both {
        old,
        new,
        book: &*book,
        old_labels: &old_labels,
        new_labels: &new_labels,
        callees: &callees,
    };
    walk_both(alloc, &both, steps)
}

/// The walk of an old program and a new one, by their graphs: the reached pairs, each once and with its reason, and the
/// dangerous edges (Rothermel and Harrold, ACM TOSEM 6(2), 1997). An `Err` is want of memory.
///
/// Each point's label gets a number at the beginning, and each call its callee, which is looked for by a logarithm of the
/// functions. Beside one comparison of two numbers at most for each edge of a reached pair, which `steps` counts, also
/// before an `Err`, the edge's exit label is looked for at the new point, a case of a `switch` by a logarithm. Whether a
/// pair is held says a bit: there is one for each old point and new point.
pub fn walk<L: Ledger>(
    alloc: Global,
    old: &Graph,
    new: &Graph,
    steps: &mut Steps<L>,
) -> Result<WalkResult, AllocError>
    ensures is_walk { (P P' : ProgramTree) → IsGraphOf old.now P → IsGraphOf new.now P' → IfOk result (IsWalk P P') }
    ensures counted { steps.new ≤ steps.old + edge_count old.now * point_count new.now }
{
    // the book is dropped here alone, since that takes long to prove
    let mut book = LabelBook::new(alloc);
    walk_by(alloc, old, new, &mut book, steps)
}
