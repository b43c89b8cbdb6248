//! The selected tests in the order of additional edge coverage.
ghost use Rattle.std.specs.Prelude.{◌≡◌, ◌<◌, ◌≤◌, IfOk, MatchResult, length};
ghost use Rattle.csub_semantics.specs.Syntax.{ProgramTree, program_tree};
ghost use Rattle.csub_answers.specs.Accepted.{Accepted};
ghost use Rattle.test_suite.specs.Suites.{most_tests};
ghost use Rattle.test_history.specs.declared.version.Version.TheVariants.{Third};
ghost use Rattle.command_files.specs.Steps.{IsHistoryCause};
ghost use Rattle.command_histories.specs.Orders.{IsOrdering};
ghost use Rattle.command_histories.specs.Steps.{HasOrder};

use command_files::{Runner, Selection, Versions, select_tests};
use command_refusals::Refusal;
use std::alloc::{AllocError, Global};
use std::thread::Threads;
use test_gate::Gate;
use test_order::{order, order_text};

/// The text of the order of the selected tests, for two versions and the bytes of a history of the old one. The gains are
/// counted by so many workers, which enter the gate with a test's place in the history before they count it.
pub fn ordered_text<R: Threads + Sync, G: Gate>(
    alloc: Global,
    versions: &Versions,
    bytes: &[u8],
    runner: Runner<'_, R, G>,
) -> Result<Vec<u8>, Refusal>
    requires some { 0 < runner.workers }
    requires few { runner.workers ≤ 64 }
    requires alone { (P : ProgramTree) → Accepted versions.now.source.items P → P ≡ program_tree versions.now.old }
    ensures { MatchResult result
        (λ text. IsOrdering versions.now.source.items bytes.now (program_tree versions.now.old) (program_tree versions.now.new) text.items)
        (IsHistoryCause Third versions.now.source.items bytes.now (program_tree versions.now.old)) }
{
    let selection = select_tests(alloc, versions, bytes)?;
    Ok(text_of(alloc, &selection, runner)?)
}

/// The text of the order of the selected tests. An `Err` is want of memory.
fn text_of<R: Threads + Sync, G: Gate>(
    alloc: Global,
    selection: &Selection,
    runner: Runner<'_, R, G>,
) -> Result<Vec<u8>, AllocError>
    requires some { 0 < runner.workers }
    requires few { runner.workers ≤ 64 }
    requires tests { length selection.now.history.entries ≤ most_tests }
    requires choices { length selection.now.chosen.choices.items ≡ length selection.now.history.entries }
    ensures { IfOk result (λ text. HasOrder selection.now.history.entries selection.now.chosen.choices.items text.items) }
{
    let placed = order(
        runner.rt,
        alloc,
        &selection.history,
        &selection.chosen.choices,
        runner.workers,
        runner.gate,
    )?;
    order_text(alloc, &selection.history, &placed)
}
