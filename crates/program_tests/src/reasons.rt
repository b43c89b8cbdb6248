//! The reasons of the facts that a walk by steps holds.
ghost use Rattle.std.specs.Prelude.{◌≡◌, ◌<◌, []};
ghost use Rattle.dual_walk.specs.Prepared.{IsPrepared};
ghost use Rattle.dual_walk.specs.Rest.{facts_of, IsAtRest};

use crate::graphs::{SMALL, graph_of};
use dual_walk::{Both, Fact, Walk, Why, list_callees, number_labels};
use edge_label::{LabelBook, Steps};
use flow_graph::Graph;
use std::alloc::{AllocError, Global};
use std::marker::Brand;
use std::sync::ledger::{Blank, Ledger};
use std::test::Fail;

/// Adds the entries of `#start`, and what follows from them by steps.
fn start<L: Ledger>(
    both: &Both<'_>,
    walk: &mut Walk,
    steps: &mut Steps<L>,
) -> Result<(), AllocError>
    requires prepared { IsPrepared both.now }
    requires rests { IsAtRest both.now.old.now both.now.new.now walk.old }
    requires none { facts_of walk.old ≡ [] }
{
    if both.old.points() == 0 || both.new.points() == 0 {
        return Ok(());
    }
    let fact = Fact {
        function: both.old.function_at(0),
        old: 0,
        new: 0,
        why: Why::Start,
    };
    walk.add(both, fact, steps)
}

/// The reasons of the facts of a walk that has started, by their places.
fn reasons_counted<L: Ledger>(
    alloc: Global,
    both: &Both<'_>,
    blank: Blank,
) -> Result<Vec<Why>, AllocError>
    requires name { blank.name ≡ L.name }
    requires parts { blank.parts ≡ L.parts }
    requires some { 0 < blank.parts }
    requires prepared { IsPrepared both.now }
{
    let mut steps: Steps<L> = Steps::new(blank);
    let mut walk = Walk::new(alloc, both.old, both.new)?;
    start(both, &mut walk, &mut steps)?;
    let mut reasons = Vec::new(alloc);
    for place in 0..walk.pairs().len() {
        reasons.push(*walk.why(place))?;
    }
    Ok(reasons)
}

/// The reasons for a graph and itself, whose labels get their numbers in a book.
fn reasons_by(alloc: Global, graph: &Graph, book: &mut LabelBook) -> Result<Vec<Why>, AllocError> {
    let labels = number_labels(alloc, graph, book)?;
    let callees = list_callees(alloc, graph, graph)?;
    let both = Both {
        old: graph,
        new: graph,
        book: &*book,
        old_labels: &labels,
        new_labels: &labels,
        callees: &callees,
    };
    reasons_counted::<Brand>(alloc, &both, Blank::new(1))
}

/// The same with a new book.
fn reasons_anew(alloc: Global, graph: &Graph) -> Result<Vec<Why>, AllocError> {
    let mut book = LabelBook::new(alloc);
    reasons_by(alloc, graph, &mut book)
}

// By steps alone `main` isn't entered, so behind its call, which the edge 0 leads to, nothing is reached.
#[test]
fn each_held_fact_has_its_reason(rt: HostRuntime) -> Result<(), Fail> {
    let graph = graph_of(rt.alloc(), SMALL)?;
    let found = reasons_anew(rt.alloc(), &graph)?;
    let want = &[Why::Start, Why::Step(0, 0)];
    assert!(rt; found.as_slice() == want.as_slice());
    Ok(())
}
