//! The answer of `rerun`.
ghost use Rattle.std.specs.Prelude.{◌≡◌, ◌<◌, ◌≤◌, Bool, MatchResult};
ghost use Rattle.csub_semantics.specs.Syntax.{ProgramTree, program_tree};
ghost use Rattle.csub_answers.specs.Accepted.{Accepted};
ghost use Rattle.test_history.specs.declared.version.Version.TheVariants.{Third};
ghost use Rattle.command_files.specs.Steps.{IsHistoryCause};
ghost use Rattle.command_runs.specs.Rerun.{IsRerun};
ghost use Rattle.dejavu_cli.specs.Texts.{end_of_rerun};

use crate::answer::{Answer, End};
use command_files::{Runner, Versions, select_tests};
use command_refusals::Refusal;
use command_runs::rerun_selected;
use dv_outside::Gate;
use std::alloc::Global;
use std::thread::Threads;

/// The answer of `rerun` for two versions and the bytes of a history of the old one.
pub(crate) fn rerun_answer<R: Threads + Sync, G: Gate>(
    alloc: Global,
    versions: &Versions,
    bytes: &[u8],
    runner: Runner<'_, R, G>,
) -> Result<Answer, Refusal>
    requires some { 0 < runner.workers }
    requires few { runner.workers ≤ 64 }
    requires alone { (P : ProgramTree) → Accepted versions.now.source.items P → P ≡ program_tree versions.now.old }
    ensures { MatchResult result
        (λ answer. (differs : Bool) × (answer.end ≡ end_of_rerun differs)
        × IsRerun versions.now.source.items bytes.now (program_tree versions.now.old) (program_tree versions.now.new) differs answer.text.items)
        (IsHistoryCause Third versions.now.source.items bytes.now (program_tree versions.now.old)) }
{
    let selection = select_tests(alloc, versions, bytes)?;
    let told = rerun_selected(
        alloc,
        &selection.history,
        &selection.chosen.choices,
        &versions.new,
        &selection.graphs.new,
        runner,
    )?;
    Ok(Answer {
        end: rerun_end(told.differs > 0),
        text: told.bytes,
    })
}

/// How `rerun` ends, by whether a test differs.
fn rerun_end(differs: bool) -> End
    ensures { result ≡ end_of_rerun differs }
{
    if differs { End::Differs } else { End::Whole }
}
