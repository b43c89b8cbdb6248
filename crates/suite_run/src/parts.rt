//! Parts of the list of tests, a worker for each, and what they give together.
ghost use Rattle.std.specs.Prelude.{◌+◌, ◌*◌, ◌^◌, ◌<◌, ◌≤◌, length, IfOk, All};
ghost use Rattle.std.specs.List.{AllZip};
ghost use Rattle.csub_semantics.specs.Syntax.{program_tree};
ghost use Rattle.flow_graph.specs.Graph.{IsGraphOf};
ghost use Rattle.csub_flat.specs.Copies.{IsFlatOf};
ghost use Rattle.test_suite.specs.Tests.{IsWithin};
ghost use Rattle.test_history.specs.Entries.{IsEntry};
ghost use Rattle.suite_run.specs.Parts.{ArePartsOf, Joins};

use crate::run::run_chunk;
use csub_core::Program;
use csub_flat::flatten_program;
use flow_graph::Graph;
use std::alloc::{AllocError, Global};
use std::thread;
use std::thread::Threads;
use test_gate::Gate;
use test_history::Entry;
use test_suite::Test;

/// What the workers give, each for a chunk of so many tests, over a flat copy of the program that all share. An `Err` is
/// want of memory.
pub(crate) fn run_parts<R: Threads + Sync, G: Gate>(
    rt: &R,
    alloc: Global,
    program: &Program,
    graph: &Graph,
    tests: &[Test],
    size: usize,
    gate: &G,
) -> Result<Vec<Result<Vec<Entry>, AllocError>>, AllocError>
    requires graph { IsGraphOf graph.now (program_tree program.now) }
    requires within { All IsWithin tests.now }
    requires some { 0 < size }
    ensures parts { IfOk result (λ parts. ArePartsOf (program_tree program.now) tests.now size parts.items) }
    ensures enough { IfOk result (λ parts. length tests.now ≤ length parts.items * size) }
{
    let flat = flatten_program(alloc, program, graph)?;
    let run = |start: usize, chunk: &[Test]| -> Result<Vec<Entry>, AllocError>
        requires { IsGraphOf graph.now (program_tree program.now) × IsFlatOf (program_tree program.now) flat × All IsWithin chunk.now × (start + length chunk.now < 2 ^ 64) }
        ensures { IfOk result (λ entries. AllZip (IsEntry (program_tree program.entry.now)) chunk.entry.now entries.items) }
    { run_chunk(alloc, program, graph, &flat, start, chunk, gate) };
    thread::map_chunks(rt, alloc, tests, size, &run)
}

/// The entries of all parts, one part after another. An `Err` is want of memory.
pub(crate) fn join_parts(
    alloc: Global,
    parts: Vec<Result<Vec<Entry>, AllocError>>,
) -> Result<Vec<Entry>, AllocError>
    ensures { IfOk result (λ entries. Joins parts.items entries.items) }
{
    let mut entries = Vec::new(alloc);
    for part in parts {
        let mut taken = part?;
        entries.append(&mut taken)?;
    }
    Ok(entries)
}
