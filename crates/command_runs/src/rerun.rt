//! The runs of the selected tests on the new program.
ghost use Rattle.std.specs.Prelude.{◌≡◌, ◌<◌, ◌≤◌, All, IfOk, length};
ghost use Rattle.csub_semantics.specs.Syntax.{program_tree};
ghost use Rattle.flow_graph.specs.Graph.{IsGraphOf};
ghost use Rattle.test_history.specs.Histories.{IsEntryWithin};
ghost use Rattle.command_runs.specs.Rerun.{selected_tests};
ghost use Rattle.command_runs.specs.Steps.{HasReran};

use command_files::Runner;
use csub_core::Program;
use flow_graph::Graph;
use rerun_report::{RerunText, rerun_text};
use std::alloc::{AllocError, Global};
use std::thread::Threads;
use suite_run::run_all;
use test_gate::Gate;
use test_history::{Entry, History};
use test_select::Choice;
use test_suite::{Test, copy_test};

/// What is told of the runs of the selected tests on a program. An `Err` is want of memory.
pub fn rerun_selected<R: Threads + Sync, G: Gate>(
    alloc: Global,
    history: &History,
    choices: &[Choice],
    program: &Program,
    graph: &Graph,
    runner: Runner<'_, R, G>,
) -> Result<RerunText, AllocError>
    requires graph { IsGraphOf graph.now (program_tree program.now) }
    requires some { 0 < runner.workers }
    requires few { runner.workers ≤ 64 }
    requires choices { length choices.now ≡ length history.now.entries }
    requires within { All IsEntryWithin history.now.entries }
    ensures { IfOk result (HasReran (program_tree program.now) history.now.entries choices.now) }
{
    let tests = selected_tests(alloc, history.entries(), choices)?;
    let results = run_all(
        runner.rt,
        alloc,
        program,
        graph,
        &tests,
        runner.workers,
        runner.gate,
    )?;
    rerun_text(alloc, history, choices, &results)
}

/// The selected tests, in order. An `Err` is want of memory.
fn selected_tests(
    alloc: Global,
    entries: &[Entry],
    choices: &[Choice],
) -> Result<Vec<Test>, AllocError>
    requires { length choices.now ≡ length entries.now }
    ensures { IfOk result (λ tests. tests.items ≡ selected_tests entries.now choices.now) }
{
    let mut tests = Vec::new(alloc);
    for (place, entry) in entries.iter().enumerate() {
        if choices[place].is_selected() {
            tests.push(copy_test(alloc, entry.test())?)?;
        }
    }
    Ok(tests)
}
