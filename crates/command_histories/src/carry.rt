//! A history brought to the new version.
ghost use Rattle.std.specs.Prelude.{◌≡◌, ◌<◌, ◌≤◌, ℕ, List, IfOk, MatchResult};
ghost use Rattle.csub_semantics.specs.Syntax.{ProgramTree, program_tree};
ghost use Rattle.csub_answers.specs.Accepted.{Accepted};
ghost use Rattle.test_history.specs.Histories.{IsReadable};
ghost use Rattle.command_files.specs.Steps.{IsMade, IsSelectionOf};
ghost use Rattle.command_histories.specs.Carried.{IsCarriedText, IsCarriedCause};
ghost use Rattle.command_histories.specs.Steps.{HasCarried};

use carry_history::carry;
use carry_history::laws::carried_is_recorded;
use command_files::{Runner, Selection, Versions, select_tests};
use command_refusals::{Product, Refusal};
use edge_images::images;
use program_laws::bounds;
use std::alloc::{AllocError, Global};
use std::thread::Threads;
use test_gate::Gate;
use test_history::{History, HistoryTextError, write_history};

/// The text of the history of the new version, for two versions and the bytes of a history of the old one. The tests that must
/// run are run by so many workers, which enter the gate with a test's place among these before they run it.
pub fn carried_text<R: Threads + Sync, G: Gate>(
    alloc: Global,
    versions: &Versions,
    bytes: &[u8],
    runner: Runner<'_, R, G>,
) -> Result<Vec<u8>, Refusal>
    requires some { 0 < runner.workers }
    requires few { runner.workers ≤ 64 }
    requires alone { (P : ProgramTree) → Accepted versions.now.source.items P → P ≡ program_tree versions.now.old }
    requires accepted { Accepted versions.now.new_source.items (program_tree versions.now.new) }
    ensures { MatchResult result
        (λ text. IsMade (IsCarriedText versions.now.source.items versions.now.new_source.items bytes.now (program_tree versions.now.old) (program_tree versions.now.new)) text.items)
        (IsCarriedCause versions.now.source.items versions.now.new_source.items bytes.now (program_tree versions.now.old) (program_tree versions.now.new)) }
{
    // Why the text is what `record` writes: the law of recorded histories.
    carried_is_recorded();
    let selection = select_tests(alloc, versions, bytes)?;
    let carried = carried_history(alloc, versions, &selection, runner)?;
    match write_history(alloc, &carried) {
        Ok(text) => Ok(text),
        Err(HistoryTextError::TooLong(count)) => Err(Refusal::TooMuch(Product::History, count)),
        Err(HistoryTextError::Memory) => Err(Refusal::Memory),
    }
}

/// The history of a selection, brought to the new version. An `Err` is want of memory.
fn carried_history<R: Threads + Sync, G: Gate>(
    alloc: Global,
    versions: &Versions,
    selection: &Selection,
    runner: Runner<'_, R, G>,
) -> Result<History, AllocError>
    requires some { 0 < runner.workers }
    requires few { runner.workers ≤ 64 }
    requires selection { (bytes : List ℕ) × IsSelectionOf versions.now.source.items bytes (program_tree versions.now.old) (program_tree versions.now.new) selection.now }
    ensures carried { IfOk result
        (HasCarried (program_tree versions.now.old) (program_tree versions.now.new) versions.now.new_source.items selection.now.chosen.choices.items selection.now.history) }
    ensures readable { IfOk result IsReadable }
{
    // The limits of the entries that runs give: the law of bounded runs.
    bounds();
    let graphs = &selection.graphs;
    let images = images(alloc, &graphs.old, &graphs.new, &selection.chosen.walked)?;
    carry(
        runner.rt,
        alloc,
        &selection.history,
        &selection.chosen.choices,
        &images,
        &versions.new,
        &graphs.new,
        &versions.new_source,
        runner.workers,
        runner.gate,
    )
}
