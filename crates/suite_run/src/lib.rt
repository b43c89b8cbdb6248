//! Runs of the tests of a suite, side by side.
//!
//! [`run_all`] gives an entry for each test: the test with what its run on a program gives (`Entries` of `test_history`). Its
//! contract is the whole promise. It doesn't name the number of workers, so an `Ok` is the same for each of them.
//!
//! [`run`] makes the runs of one worker, one after another; [`parts`] cuts the list of tests into chunks, a worker for
//! each, and puts together what they give (`specs/Parts`).
#![tactic(auto)]

ghost use Rattle.std.specs.Prelude.{◌<◌, ◌≤◌, IfOk, All};
ghost use Rattle.std.specs.List.{AllZip};
ghost use Rattle.csub_semantics.specs.Syntax.{program_tree};
ghost use Rattle.flow_graph.specs.Graph.{IsGraphOf};
ghost use Rattle.test_suite.specs.Tests.{IsWithin};
ghost use Rattle.test_history.specs.Entries.{IsEntry};

mod parts;
mod run;

use crate::parts::{join_parts, run_parts};
use csub_core::Program;
use flow_graph::Graph;
use std::alloc::{AllocError, Global};
use std::thread::Threads;
use test_gate::Gate;
use test_history::Entry;
use test_suite::Test;

/// What the runs of the tests give, in the order of the tests. An `Err` is want of memory, and some tests may not have
/// been run then.
///
/// There are 1 to 64 workers. The list is cut, in its order, into chunks of `ceil(tests / workers)` tests, of which the last
/// may be shorter; where there are no tests there are no chunks. A worker runs the tests of a chunk, in a thread of its own
/// where one can be made. Before it makes the machine for a test it enters the gate with the test's place in the list, from
/// 0. Each test has a machine of its own, and all machines share one flat copy of the program, so an `Ok` doesn't depend on
/// the number of workers, nor on which of them is faster.
///
/// Beside the flat copy this takes the time of the longest chunk, in which no run takes more turns than its test's budget.
/// The memory is that of the flat copy, of the entries, and of one machine for each worker.
pub fn run_all<R: Threads + Sync, G: Gate>(
    rt: &R,
    alloc: Global,
    program: &Program,
    graph: &Graph,
    tests: &[Test],
    workers: usize,
    gate: &G,
) -> Result<Vec<Entry>, AllocError>
    requires graph { IsGraphOf graph.now (program_tree program.now) }
    requires within { All IsWithin tests.now }
    requires some { 0 < workers }
    requires few { workers ≤ 64 }
    ensures { IfOk result (λ entries. AllZip (IsEntry (program_tree program.now)) tests.now entries.items) }
{
    if tests.is_empty() {
        return Ok(Vec::new(alloc));
    }
    let size = tests.len().div_ceil(workers);
    let parts = run_parts(rt, alloc, program, graph, tests, size, gate)?;
    join_parts(alloc, parts)
}
