//! What has to run again.
ghost use Rattle.std.specs.Prelude.{◌≡◌, MatchResult};
ghost use Rattle.csub_semantics.specs.Syntax.{ProgramTree, program_tree};
ghost use Rattle.csub_answers.specs.Accepted.{Accepted};
ghost use Rattle.test_history.specs.declared.version.Version.TheVariants.{Third};
ghost use Rattle.command_files.specs.Steps.{IsHistoryCause};
ghost use Rattle.command_runs.specs.Select.{IsSelection};

use command_files::{Versions, select_tests};
use command_refusals::Refusal;
use std::alloc::Global;
use test_select::select_text;

/// The text of the selection for two versions and the bytes of a history of the old one.
pub fn selection_text(alloc: Global, versions: &Versions, bytes: &[u8]) -> Result<Vec<u8>, Refusal>
    requires { (P : ProgramTree) → Accepted versions.now.source.items P → P ≡ program_tree versions.now.old }
    ensures { MatchResult result
        (λ text. IsSelection versions.now.source.items bytes.now (program_tree versions.now.old) (program_tree versions.now.new) text.items)
        (IsHistoryCause Third versions.now.source.items bytes.now (program_tree versions.now.old)) }
{
    let selection = select_tests(alloc, versions, bytes)?;
    let choices = &selection.chosen.choices;
    Ok(select_text(alloc, &selection.history, choices)?)
}
