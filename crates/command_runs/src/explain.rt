//! Why a test has to run again.
ghost use Rattle.std.specs.Prelude.{◌≡◌, ◌<◌, ◌≤◌, ℕ, List, IfOk, MatchOption, MatchResult, length};
ghost use Rattle.csub_semantics.specs.Syntax.{ProgramTree, program_tree};
ghost use Rattle.csub_answers.specs.Accepted.{Accepted};
ghost use Rattle.command_runs.specs.Explain.{HasTest, IsExplained, IsTestAt};
ghost use Rattle.test_history.specs.declared.version.Version.TheVariants.{Third};
ghost use Rattle.command_files.specs.Steps.{AreGraphs, IsOnlyHistory};
ghost use Rattle.command_runs.specs.Steps.{IsNoTestOf, IsTestCause};

use command_files::{Graphs, Versions, build_graphs, choose, read_entries};
use command_refusals::Refusal;
use csub_text::Text;
use explain_report::explain_text;
use std::alloc::{AllocError, Global};
use test_history::{Entry, History};

/// The text that explains the choice for a test, by two versions and the bytes of a history of the old one. Whether the
/// history has the test is known before the walk begins.
pub fn explanation(
    alloc: Global,
    versions: &Versions,
    bytes: &[u8],
    test: &str,
) -> Result<Vec<u8>, Refusal>
    requires short { length versions.now.source.items ≤ 1048576 }
    requires new_short { length versions.now.new_source.items ≤ 1048576 }
    requires alone { (P : ProgramTree) → Accepted versions.now.source.items P → P ≡ program_tree versions.now.old }
    ensures { MatchResult result
        (λ text. IsExplained versions.now.source.items versions.now.new_source.items bytes.now (program_tree versions.now.old) (program_tree versions.now.new) test.now text.items)
        (IsTestCause versions.now.source.items bytes.now (program_tree versions.now.old) test.now) }
{
    let graphs = build_graphs(alloc, versions)?;
    let history = read_entries(alloc, bytes, &versions.source, graphs.old.edges())?;
    let Some(place) = find_test(history.entries(), test) else {
        return Err(no_test(alloc, test));
    };
    Ok(explain_at(alloc, versions, &graphs, &history, place)?)
}

/// The place of the test with a name.
fn find_test(entries: &[Entry], test: &str) -> Option<usize>
    ensures { MatchOption result (HasTest entries.now test.now → ⊥) (IsTestAt entries.now test.now) }
{
    for (place, entry) in entries.iter().enumerate() {
        if entry.test().name().bytes() == test.as_bytes() {
            return Some(place);
        }
    }
    None
}

/// That there is no test of this name.
fn no_test(alloc: Global, test: &str) -> Refusal
    ensures { IsNoTestOf test.now result }
{
    match Text::new(alloc, test.as_bytes()) {
        Ok(name) => Refusal::NoTest(name),
        Err(_) => Refusal::Memory,
    }
}

/// The text that explains the choice for the test at a place of the history. An `Err` is want of memory.
fn explain_at(
    alloc: Global,
    versions: &Versions,
    graphs: &Graphs,
    history: &History,
    place: usize,
) -> Result<Vec<u8>, AllocError>
    requires short { length versions.now.source.items ≤ 1048576 }
    requires new_short { length versions.now.new_source.items ≤ 1048576 }
    requires alone { (P : ProgramTree) → Accepted versions.now.source.items P → P ≡ program_tree versions.now.old }
    requires graphs { AreGraphs (program_tree versions.now.old) (program_tree versions.now.new) graphs.now }
    requires history { (bytes : List ℕ) × IsOnlyHistory Third versions.now.source.items bytes (program_tree versions.now.old) history.now }
    requires place { place < length history.now.entries }
    ensures { (bytes test : List ℕ) → IsOnlyHistory Third versions.now.source.items bytes (program_tree versions.now.old) history.now → IsTestAt history.now.entries test place → IfOk result (λ text.
        IsExplained versions.now.source.items versions.now.new_source.items bytes (program_tree versions.now.old) (program_tree versions.now.new) test text.items) }
{
    let chosen = choose(alloc, versions, graphs, history)?;
    explain_text(
        alloc,
        history,
        &chosen.choices,
        place,
        &chosen.walked,
        &graphs.old,
        &graphs.new,
        &versions.source,
        &versions.new_source,
    )
}
