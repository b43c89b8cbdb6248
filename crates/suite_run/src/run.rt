//! The runs of one worker.
ghost use Rattle.std.specs.Prelude.{◌+◌, ◌^◌, ◌<◌, length, IfOk, All};
ghost use Rattle.std.specs.List.{AllZip};
ghost use Rattle.csub_semantics.specs.Syntax.{program_tree};
ghost use Rattle.flow_graph.specs.Graph.{IsGraphOf};
ghost use Rattle.csub_flat.specs.Copies.{IsFlatOf};
ghost use Rattle.test_suite.specs.Tests.{IsWithin};
ghost use Rattle.test_history.specs.Entries.{IsEntry};

use csub_core::Program;
use csub_flat::FlatProgram;
use csub_machine::Machine;
use flow_graph::Graph;
use std::alloc::{AllocError, Global};
use test_gate::Gate;
use test_history::Entry;
use test_suite::{Test, copy_test};

/// What the run of one test gives. An `Err` is want of memory.
fn run_one(
    alloc: Global,
    program: &Program,
    graph: &Graph,
    flat: &FlatProgram,
    test: &Test,
) -> Result<Entry, AllocError>
    requires graph { IsGraphOf graph.now (program_tree program.now) }
    requires copies { IsFlatOf (program_tree program.now) flat.now }
    requires within { IsWithin test.now }
    ensures { IfOk result (λ entry. IsEntry (program_tree program.now) test.now entry) }
{
    let mut machine = Machine::over(alloc, program, graph, flat, test.input())?;
    let status = machine.run(test.budget());
    let copy = copy_test(alloc, test)?;
    let output = machine.output().to_vec(alloc)?;
    let crossed = machine.crossed().copy()?;
    Ok(Entry::new(copy, status, machine.turns(), output, crossed))
}

/// What the runs of a worker's tests give, in their order; the first test has the place `start` in the list of all. An
/// `Err` is want of memory.
pub(crate) fn run_chunk<G: Gate>(
    alloc: Global,
    program: &Program,
    graph: &Graph,
    flat: &FlatProgram,
    start: usize,
    tests: &[Test],
    gate: &G,
) -> Result<Vec<Entry>, AllocError>
    requires graph { IsGraphOf graph.now (program_tree program.now) }
    requires copies { IsFlatOf (program_tree program.now) flat.now }
    requires within { All IsWithin tests.now }
    requires places { start + length tests.now < 2 ^ 64 }
    ensures { IfOk result (λ entries. AllZip (IsEntry (program_tree program.now)) tests.now entries.items) }
{
    let mut entries = Vec::new(alloc);
    for (i, test) in tests.iter().enumerate() {
        gate.enter(start + i);
        entries.push(run_one(alloc, program, graph, flat, test)?)?;
    }
    Ok(entries)
}
