//! A history of an older version of the format in the version of today.
ghost use Rattle.std.specs.Prelude.{MatchResult};
ghost use Rattle.csub_semantics.specs.Syntax.{program_tree};
ghost use Rattle.command_files.specs.Steps.{IsMade};
ghost use Rattle.command_histories.specs.Migrations.{IsMigration, IsMigrationCause};

use command_files::read_entries_2;
use command_refusals::{Product, Refusal};
use csub_core::Program;
use flow_graph::Graph;
use std::alloc::Global;
use test_history::{HistoryTextError, write_history};

/// The text, in version 3, of the history that the bytes are in version 2. The history is one of the source, whose program is
/// given.
pub fn migrated_text(
    alloc: Global,
    source: &[u8],
    program: &Program,
    bytes: &[u8],
) -> Result<Vec<u8>, Refusal>
    ensures { MatchResult result
        (λ text. IsMade (IsMigration source.now bytes.now (program_tree program.now)) text.items)
        (IsMigrationCause source.now bytes.now (program_tree program.now)) }
{
    let graph = Graph::build(alloc, program)?;
    let history = read_entries_2(alloc, bytes, source, graph.edges())?;
    match write_history(alloc, &history) {
        Ok(text) => Ok(text),
        Err(HistoryTextError::TooLong(count)) => Err(Refusal::TooMuch(Product::History, count)),
        Err(HistoryTextError::Memory) => Err(Refusal::Memory),
    }
}
