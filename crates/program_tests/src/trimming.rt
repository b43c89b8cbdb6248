//! A part of the facts of a walk, worked out by hand from the numbers of the graph and from the order in which a walk finds
//! facts.
ghost use Rattle.csub_semantics.specs.Syntax.{ProgramTree};
ghost use Rattle.flow_graph.specs.Graph.{HasProgram, IsGraphOf};
ghost use Rattle.call_walk.specs.Walks.{IsWalk};

use crate::graphs::{SMALL, graph_of};
use crate::walks::walk_counted;
use call_walk::{Fact, WalkResult, Why};
use explain_report::trim;
use flow_graph::Graph;
use std::alloc::Global;
use std::marker::Brand;
use std::sync::ledger::Blank;
use std::test::Fail;

/// Each graph is that of a valid program.
fn have_programs(old: &Graph, new: &Graph)
    ensures old { HasProgram old.now }
    ensures new { HasProgram new.now }
{
    old.points();
    new.points();
}

/// The fact at a place of a walk, and those on which it rests.
fn part_for(
    alloc: Global,
    old: &Graph,
    new: &Graph,
    walked: &WalkResult,
    wanted: u32,
) -> Result<Vec<Fact>, Fail>
    requires walk { (P P' : ProgramTree) → IsGraphOf old.now P → IsGraphOf new.now P' → IsWalk P P' walked.now }
{
    have_programs(old, new);
    if walked.facts.len() > u32::MAX as usize || wanted as usize >= walked.facts.len() {
        return Err("no such fact")?;
    }
    Ok(trim(alloc, walked.facts.as_slice(), &[wanted])?)
}

/// The same of the walk of a graph with itself.
fn part_of(alloc: Global, graph: &Graph, wanted: u32) -> Result<Vec<Fact>, Fail> {
    let walked = walk_counted::<Brand>(alloc, graph, graph, Blank::new(1))?;
    part_for(alloc, graph, graph, &walked, wanted)
}

/// A point beside itself.
fn beside_itself(function: u32, point: u32, why: Why) -> Fact {
    Fact {
        function,
        old: point,
        new: point,
        why,
    }
}

// The walk finds the point 2, behind the call of `main`, last: after 0, 1, 3, 4, 5, 6, 7 and 8. Of the two ways to 7 it finds the
// one by 5 first, so that nothing rests on 6, and the places behind that are one less.
#[test]
fn a_part_has_what_its_facts_rest_on_by_new_places(rt: HostRuntime) -> Result<(), Fail> {
    let graph = graph_of(rt.alloc(), SMALL)?;
    let found = part_of(rt.alloc(), &graph, 8)?;
    let want = &[
        beside_itself(0, 0, Why::Start),
        beside_itself(0, 1, Why::Step(0, 0)),
        beside_itself(1, 3, Why::Call(1)),
        beside_itself(1, 4, Why::Step(2, 2)),
        beside_itself(1, 5, Why::Step(3, 3)),
        beside_itself(1, 7, Why::Step(4, 5)),
        beside_itself(1, 8, Why::Step(5, 7)),
        beside_itself(0, 2, Why::Over(1, 6)),
    ];
    assert!(rt; found.as_slice() == want.as_slice());
    Ok(())
}
