//! Graphs of sources, and how many questions the walk of two asks.
ghost use Rattle.std.specs.Prelude.{◌≡◌, ◌+◌, ◌<◌, ◌≤◌};
ghost use Rattle.flow_graph.specs.Graph.{edge_count, point_count};

use crate::sources::program_of;
use call_walk::WalkResult;
use edge_label::Steps;
use flow_graph::Graph;
use std::alloc::{AllocError, Global};
use std::marker::Brand;
use std::sync::ledger::{Blank, Ledger};
use std::test::Fail;

/// The walk of two graphs. Where the old one has 9 edges and the new one 13 points, at most 117 questions are asked.
fn walk_asking<L: Ledger>(
    alloc: Global,
    old: &Graph,
    new: &Graph,
    steps: &mut Steps<L>,
) -> Result<WalkResult, AllocError>
    ensures { edge_count old.now ≡ 9 → point_count new.now ≡ 13 → steps.new ≤ steps.old + 117 }
{
    call_walk::walk(alloc, old, new, steps)
}

/// The walk of two graphs, whose questions are counted in the ledger of `blank`.
fn walk_counted<L: Ledger>(
    alloc: Global,
    old: &Graph,
    new: &Graph,
    blank: Blank,
) -> Result<WalkResult, AllocError>
    requires name { blank.name ≡ L.name }
    requires parts { blank.parts ≡ L.parts }
    requires some { 0 < blank.parts }
{
    let mut steps: Steps<L> = Steps::new(blank);
    walk_asking(alloc, old, new, &mut steps)
}

/// The walk of two graphs.
fn walk(alloc: Global, old: &Graph, new: &Graph) -> Result<WalkResult, AllocError> {
    walk_counted::<Brand>(alloc, old, new, Blank::new(1))
}

fn graph_of(alloc: Global, items: &str) -> Result<Graph, Fail> {
    let program = program_of(alloc, items)?;
    Ok(Graph::build(alloc, &program)?)
}

/// How many edges and points the graph of a source has.
pub fn sizes(alloc: Global, source: &str) -> Result<(u32, u32), Fail> {
    let graph = graph_of(alloc, source)?;
    Ok((graph.edges(), graph.points()))
}

/// How many pairs the walk of two graphs reaches.
fn pairs_of(alloc: Global, old: &Graph, new: &Graph) -> Result<usize, AllocError> {
    let walked = walk(alloc, old, new)?;
    Ok(walked.facts.len())
}

/// The same of a graph and a source.
fn pairs_from(alloc: Global, old: &Graph, new: &str) -> Result<usize, Fail> {
    let new = graph_of(alloc, new)?;
    Ok(pairs_of(alloc, old, &new)?)
}

/// The same of two sources. Each graph is dropped in one place alone.
fn pairs(alloc: Global, old: &str, new: &str) -> Result<usize, Fail> {
    let old = graph_of(alloc, old)?;
    pairs_from(alloc, &old, new)
}

/// A loop, and the same with its first round before it.
const LOOP: &str =
    "int main(void) { int c; c = getchar(); while (c != -1) { putchar(c); c = getchar(); } return 0; }";

const UNROLLED: &str =
    "int main(void) { int c; c = getchar(); if (c != -1) { putchar(c); c = getchar(); while (c != -1) { putchar(c); c = getchar(); } } return 0; }";

// The 9 edges and 13 points for which `walk_asking` says that at most 117 questions are asked, and the 13 pairs.
#[test]
fn an_unrolled_loop_is_walked_with_117_questions_at_most(rt: HostRuntime) -> Result<(), Fail> {
    let (edges, _) = sizes(rt.alloc(), LOOP)?;
    let (_, points) = sizes(rt.alloc(), UNROLLED)?;
    assert_eq!(rt; (edges, points), (9, 13));
    assert_eq!(rt; pairs(rt.alloc(), LOOP, UNROLLED)?, 13);
    Ok(())
}
