//! The history of a source and a suite.
ghost use Rattle.std.specs.Prelude.{ℕ, ◌<◌, ◌≤◌, IfOk, List, MatchResult, All, length};
ghost use Rattle.csub_semantics.specs.Syntax.{program_tree};
ghost use Rattle.flow_graph.specs.Graph.{IsGraphOf};
ghost use Rattle.test_suite.specs.Suites.{most_tests};
ghost use Rattle.test_suite.specs.Tests.{IsWithin};
ghost use Rattle.test_history.specs.Histories.{IsHistoryWithin, IsReadable};
ghost use Rattle.command_files.specs.Record.{IsHistory, IsSuiteFile};
ghost use Rattle.command_files.specs.Steps.{IsMade};
ghost use Rattle.command_runs.specs.Recorded.{IsRecorded};
ghost use Rattle.command_runs.specs.Steps.{IsRecordCause};

use command_files::{Runner, read_tests};
use command_refusals::{Product, Refusal};
use csub_core::Program;
use flow_graph::Graph;
use program_laws::bounds;
use std::alloc::{AllocError, Global};
use std::thread::Threads;
use suite_run::run_all;
use test_gate::Gate;
use test_history::{History, HistoryTextError, digest_of, write_history};
use test_suite::Test;

/// The history of a source's program, whose graph is given, and the tests. An `Err` is want of memory.
pub(crate) fn make_history<R: Threads + Sync, G: Gate>(
    alloc: Global,
    source: &[u8],
    program: &Program,
    graph: &Graph,
    tests: &[Test],
    runner: Runner<'_, R, G>,
) -> Result<History, AllocError>
    requires graph { IsGraphOf graph.now (program_tree program.now) }
    requires within { All IsWithin tests.now }
    requires count { length tests.now ≤ most_tests }
    requires some { 0 < runner.workers }
    requires few { runner.workers ≤ 64 }
    ensures history { IfOk result (λ history. IsHistory source.now (program_tree program.now) tests.now history) }
    ensures within { IfOk result (λ history. IsHistoryWithin history) }
    ensures readable { (suite : List ℕ) → IsSuiteFile suite tests.now → IfOk result IsReadable }
{
    bounds();
    let entries = run_all(
        runner.rt,
        alloc,
        program,
        graph,
        tests,
        runner.workers,
        runner.gate,
    )?;
    Ok(History::new(digest_of(source), graph.edges(), entries))
}

/// The text of the history of a source, whose program is given, and of the suite that the bytes are.
pub fn record_text<R: Threads + Sync, G: Gate>(
    alloc: Global,
    source: &[u8],
    program: &Program,
    bytes: &[u8],
    runner: Runner<'_, R, G>,
) -> Result<Vec<u8>, Refusal>
    requires some { 0 < runner.workers }
    requires few { runner.workers ≤ 64 }
    ensures { MatchResult result
        (λ text. IsMade (IsRecorded source.now bytes.now (program_tree program.now)) text.items)
        (IsRecordCause source.now bytes.now (program_tree program.now)) }
{
    let tests = read_tests(alloc, bytes)?;
    let graph = Graph::build(alloc, program)?;
    let history = make_history(alloc, source, program, &graph, &tests, runner)?;
    match write_history(alloc, &history) {
        Ok(text) => Ok(text),
        Err(HistoryTextError::TooLong(count)) => Err(Refusal::TooMuch(Product::History, count)),
        Err(HistoryTextError::Memory) => Err(Refusal::Memory),
    }
}
