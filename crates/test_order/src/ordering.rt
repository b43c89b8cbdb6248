//! The order of the selected tests.
ghost use Rattle.std.specs.Prelude.{◌≡◌, ◌<◌, ◌≤◌, ◌++◌, [], length, map, IfOk};
ghost use Rattle.test_suite.specs.Suites.{most_tests};
ghost use Rattle.test_order.specs.Counts.{without, without_gain, AreWaiting};
ghost use Rattle.test_order.specs.Orders.{IsOrder};

use crate::counting::next_place;
use crate::placed::Placed;
use edge_trace::EdgeRow;
use std::alloc::{AllocError, Global};
use std::thread::Threads;
use test_gate::Gate;
use test_history::History;
use test_select::Choice;

/// The selected tests of the history in the order of additional edge coverage. Each place holds, among the selected
/// tests that are not yet placed, one of the greatest gain, the earliest in the history among equals; a test's gain is the
/// number of edges that it crosses and that no test placed before it crosses. The tests that add nothing any more have the
/// last places, with gain 0. There is one choice for each test of the history. An `Err` is want of memory.
///
/// There are 1 to 64 workers. For each place the list of the waiting tests is cut, in the order of the history, into chunks
/// of `ceil(waiting / workers)` tests, of which the last may be shorter. A worker counts the gains of a chunk, in a thread
/// of its own where one can be made, and enters the gate with a test's place in the history before it counts that test.
/// Once no waiting test adds an edge, the rest is placed without being counted again. An `Ok` doesn't depend on the number
/// of workers, nor on which of them is faster.
///
/// For each place this takes time in proportion to the rows of the longest chunk. The memory is in proportion to the
/// selected tests and one row.
pub fn order<R: Threads + Sync, G: Gate>(
    rt: &R,
    alloc: Global,
    history: &History,
    choices: &[Choice],
    workers: usize,
    gate: &G,
) -> Result<Vec<Placed>, AllocError>
    requires tests { length history.now.entries ≤ most_tests }
    requires choices { length choices.now ≡ length history.now.entries }
    requires some { 0 < workers }
    requires few { workers ≤ 64 }
    ensures { IfOk result (λ placed. IsOrder history.now.entries choices.now placed.items) }
{
    let entries = history.entries();
    let mut waiting = selected_tests(alloc, choices)?;
    let mut covered = EdgeRow::new(alloc, history.edges())?;
    let mut placed = Vec::with_capacity(alloc, waiting.len())?;
    while !waiting.is_empty() {
        let next = next_place(rt, alloc, entries, &covered, &waiting, workers, gate)?;
        if next.gain == 0 {
            return place_rest(placed, &waiting);
        }
        covered.join(entries[next.at as usize].crossed());
        take_out(&mut waiting, next.at);
        placed.push(next)?;
    }
    Ok(placed)
}

/// Takes a test out of the waiting ones.
fn take_out(waiting: &mut Vec<u32>, test: u32)
    ensures { waiting.new.items ≡ without test waiting.old.items }
{
    waiting.retain(|one| *one != test);
}

/// The places, and after them the tests that wait, none of which adds an edge. An `Err` is want of memory.
fn place_rest(mut placed: Vec<Placed>, waiting: &[u32]) -> Result<Vec<Placed>, AllocError>
    ensures { IfOk result (λ all. all.items ≡ placed.items ++ map without_gain waiting.now) }
{
    for test in waiting {
        placed.push(Placed { at: *test, gain: 0 })?;
    }
    Ok(placed)
}

/// The places of the selected tests in the history, in its order. An `Err` is want of memory.
fn selected_tests(alloc: Global, choices: &[Choice]) -> Result<Vec<u32>, AllocError>
    requires { length choices.now ≤ most_tests }
    ensures { IfOk result (λ tests. AreWaiting choices.now [] tests.items) }
{
    let mut tests = Vec::new(alloc);
    for (place, choice) in choices.iter().enumerate() {
        if choice.is_selected() {
            tests.push(place as u32)?;
        }
    }
    Ok(tests)
}
