//! Files that a command names.
ghost use Rattle.std.specs.Prelude.{◌≡◌, IfOk, IfErr, MatchResult, Ok, length};
ghost use Rattle.dv_outside.specs.Outside.{Answers, NeverFalls};
ghost use Rattle.csub_semantics.specs.Syntax.{ProgramTree, program_tree};
ghost use Rattle.csub_semantics.specs.Flows.{edge_list};
ghost use Rattle.csub_answers.specs.Accepted.{Accepted};
ghost use Rattle.test_history.specs.declared.version.Version.TheVariants.{Second, Third};
ghost use Rattle.command_files.specs.Record.{IsSuiteFile};
ghost use Rattle.command_files.specs.Files.{IsFetchCause, IsSourceCause};
ghost use Rattle.command_files.specs.Steps.{IsSuiteCause, IsOnlyHistory, IsHistoryCause};

use command_refusals::{Refusal, Role, history_cause, source_cause, suite_cause};
use csub_accept::accept;
use csub_core::Program;
use dv_outside::{FetchError, Shelf};
use std::alloc::Global;
use test_history::{History, read_history, read_history_2};
use test_suite::{Test, read_suite};

/// The most bytes of a source that are read: one more than a source may have.
pub const SOURCE_AND_ONE: usize = 1_048_577;

/// The most bytes of a suite that are read: one more than a suite may have.
pub const SUITE_AND_ONE: usize = 16_777_217;

/// The most bytes of a history or a certificate that are read: one more than either may have.
pub const FILE_AND_ONE: usize = 134_217_729;

/// The first `most` bytes of a file, or all if it has fewer.
pub fn fetch_file<S: Shelf>(shelf: &mut S, name: &str, most: usize) -> Result<Vec<u8>, Refusal>
    ensures bytes { IfOk result (λ bytes. Answers (S.answers shelf.old) (S.answers shelf.new) name.now most (Ok bytes.items)) }
    ensures cause { IfErr result (IsFetchCause (S.answers shelf.old) (S.answers shelf.new) name.now most) }
    ensures counts { NeverFalls (S.faults shelf.old) (S.faults shelf.new) }
    ensures same { S.files shelf.new ≡ S.files shelf.old }
{
    match shelf.fetch(name, most) {
        Ok(bytes) => Ok(bytes),
        Err(FetchError::Failed) => Err(Refusal::ReadFault),
        Err(FetchError::Memory) => Err(Refusal::Memory),
    }
}

/// The program of the source in a role.
pub fn read_source(alloc: Global, role: Role, bytes: &[u8]) -> Result<Program, Refusal>
    ensures accepted { IfOk result (λ program. Accepted bytes.now (program_tree program)) }
    ensures only { IfOk result (λ program. (P : ProgramTree) → Accepted bytes.now P → P ≡ program_tree program) }
    ensures cause { IfErr result (IsSourceCause role bytes.now) }
{
    match accept(alloc, bytes) {
        Ok(program) => Ok(program),
        Err(error) => match source_cause(bytes, error) {
            None => Err(Refusal::Memory),
            Some(cause) => Err(Refusal::Source(role, cause)),
        },
    }
}

/// The tests of a suite.
pub fn read_tests(alloc: Global, bytes: &[u8]) -> Result<Vec<Test>, Refusal>
    ensures tests { IfOk result (λ tests. IsSuiteFile bytes.now tests.items) }
    ensures cause { IfErr result (IsSuiteCause bytes.now) }
{
    match read_suite(alloc, bytes) {
        Ok(tests) => Ok(tests),
        Err(error) => match suite_cause(error) {
            None => Err(Refusal::Memory),
            Some(cause) => Err(Refusal::Suite(cause)),
        },
    }
}

/// The history in a file, for the bytes of the old source and the number of its program's edges.
pub fn read_entries(alloc: Global, bytes: &[u8], old: &[u8], edges: u32) -> Result<History, Refusal>
    ensures { (P : ProgramTree) → edges ≡ length (edge_list P) → MatchResult result (IsOnlyHistory Third old.now bytes.now P) (IsHistoryCause Third old.now bytes.now P) }
{
    match read_history(alloc, bytes, old, edges) {
        Ok(history) => Ok(history),
        Err(error) => match history_cause(error) {
            None => Err(Refusal::Memory),
            Some(cause) => Err(Refusal::History(cause)),
        },
    }
}

/// The same of a history in version 2 of the format.
pub fn read_entries_2(
    alloc: Global,
    bytes: &[u8],
    old: &[u8],
    edges: u32,
) -> Result<History, Refusal>
    ensures { (P : ProgramTree) → edges ≡ length (edge_list P) → MatchResult result (IsOnlyHistory Second old.now bytes.now P) (IsHistoryCause Second old.now bytes.now P) }
{
    match read_history_2(alloc, bytes, old, edges) {
        Ok(history) => Ok(history),
        Err(error) => match history_cause(error) {
            None => Err(Refusal::Memory),
            Some(cause) => Err(Refusal::History(cause)),
        },
    }
}
