//! The carried history.
ghost use Rattle.std.specs.Prelude.{◌≡◌, ◌<◌, ◌≤◌, IfOk, All, length};
ghost use Rattle.csub_semantics.specs.Syntax.{program_tree};
ghost use Rattle.flow_graph.specs.Graph.{IsGraphOf, edge_count};
ghost use Rattle.test_suite.specs.Tests.{IsWithin};
ghost use Rattle.edge_images.specs.Images.{IsBelow};
ghost use Rattle.carry_history.specs.Carried.{IsCarried};

use crate::laying::lay;
use crate::staying::{list_again, list_stays};
use csub_core::Program;
use edge_images::Image;
use flow_graph::Graph;
use std::alloc::{AllocError, Global};
use std::thread::Threads;
use suite_run::run_all;
use test_gate::Gate;
use test_history::{History, digest_of};
use test_select::Choice;

/// The history of a new source, from that of an old one. `choices` has one choice a test of the history, `images` one answer
/// an edge of its program, by which a new edge is one of `graph`, which is that of the new program.
///
/// An entry stays where its choice is `Left` and the image of each edge that it crosses is `One`: then its test, status, turns
/// and output are the same, and its edges are these images. The tests of all other entries, and no others, run on the program,
/// in order, by [`run_all`], with the workers and the gate as there; each entry is what its run gave.
///
/// Beside these runs it takes a step for each edge and each entry, one for each 64 edges of an entry's row, and one for each
/// edge of the row and each byte of the test and the output of an entry that stays. An `Err` is want of memory, and some tests
/// may not have been run then.
pub fn carry<R: Threads + Sync, G: Gate>(
    rt: &R,
    alloc: Global,
    history: &History,
    choices: &[Choice],
    images: &[Image],
    program: &Program,
    graph: &Graph,
    new_source: &[u8],
    workers: usize,
    gate: &G,
) -> Result<History, AllocError>
    requires choices { length choices.now ≡ length history.now.entries }
    requires images { length images.now ≡ history.now.edges }
    requires below { All (IsBelow (edge_count graph.now)) images.now }
    requires graph { IsGraphOf graph.now (program_tree program.now) }
    requires within { All (λ entry. IsWithin entry.test) history.now.entries }
    requires some { 0 < workers }
    requires few { workers ≤ 64 }
    ensures { IfOk result (IsCarried (program_tree program.now) new_source.now images.now choices.now history.now) }
{
    let entries = history.entries();
    let stays = list_stays(alloc, entries, choices, images, history.edges())?;
    let tests = list_again(alloc, entries, &stays)?;
    let results = run_all(rt, alloc, program, graph, &tests, workers, gate)?;
    let carried = lay(alloc, entries, &stays, images, graph.edges(), results)?;
    Ok(History::new(digest_of(new_source), graph.edges(), carried))
}
