//! Which tests have to run again.
ghost use Rattle.std.specs.Prelude.{◌≡◌, ℕ, List, IfOk, MatchResult, length};
ghost use Rattle.csub_semantics.specs.Syntax.{ProgramTree, program_tree};
ghost use Rattle.csub_semantics.specs.Flows.{edge_list};
ghost use Rattle.csub_answers.specs.Accepted.{Accepted};
ghost use Rattle.test_history.specs.declared.version.Version.TheVariants.{Third};
ghost use Rattle.command_files.specs.Steps.{AreGraphs, HasChosen, HasWalked, IsHistoryCause, IsOnlyHistory, IsSelectionOf, IsWalkOf};

use crate::files::read_entries;
use crate::versions::{Graphs, Versions, build_graphs};
use crate::walked::walk_of;
use call_walk::WalkResult;
use call_walk::laws::lockstep;
use command_refusals::Refusal;
use program_laws::{bounds, edges};
use std::alloc::{AllocError, Global};
use test_history::History;
use test_select::{Choice, select};

/// The walk of two versions, and a choice for each entry of a history of the old one.
#[derive(Drop)]
pub struct Chosen {
    /// The walk.
    pub walked: WalkResult,
    /// The choices, in the order of the history.
    pub choices: Vec<Choice>,
}

/// A history of the old version, with the graphs and the walk of both and the choices.
#[derive(Drop)]
pub struct Selection {
    /// The history.
    pub history: History,
    /// The graphs.
    pub graphs: Graphs,
    /// The walk and the choices.
    pub chosen: Chosen,
}

/// The walk of two versions, and the choices for a history of the old one. An `Err` is want of memory.
pub fn choose(
    alloc: Global,
    versions: &Versions,
    graphs: &Graphs,
    history: &History,
) -> Result<Chosen, AllocError>
    requires alone { (P : ProgramTree) → Accepted versions.now.source.items P → P ≡ program_tree versions.now.old }
    requires graphs { AreGraphs (program_tree versions.now.old) (program_tree versions.now.new) graphs.now }
    requires edges { history.now.edges ≡ length (edge_list (program_tree versions.now.old)) }
    ensures walked { IfOk result (λ chosen.
        HasWalked (program_tree versions.now.old) (program_tree versions.now.new) history.now.entries chosen.walked chosen.choices.items) }
    // the walk is that of the graphs, whatever programs they are of
    ensures walks { IfOk result (λ chosen. IsWalkOf graphs.now chosen.walked) }
    ensures chosen { (bytes : List ℕ) → IsOnlyHistory Third versions.now.source.items bytes (program_tree versions.now.old) history.now → IfOk result (λ chosen.
        HasChosen versions.now.source.items bytes (program_tree versions.now.old) (program_tree versions.now.new) history.now chosen.choices.items) }
{
    // Why a test that is left may be left: the laws of valid programs.
    let _valid = versions.new.functions();
    lockstep();
    bounds();
    edges();
    let walked = walk_of(alloc, &graphs.old, &graphs.new)?;
    let choices = select(alloc, history, &walked.danger)?;
    Ok(Chosen { walked, choices })
}

/// The history of the old version in a file with these bytes, the graphs and the walk of both versions, and the choices.
pub fn select_tests(alloc: Global, versions: &Versions, bytes: &[u8]) -> Result<Selection, Refusal>
    requires { (P : ProgramTree) → Accepted versions.now.source.items P → P ≡ program_tree versions.now.old }
    ensures { MatchResult result
        (IsSelectionOf versions.now.source.items bytes.now (program_tree versions.now.old) (program_tree versions.now.new))
        (IsHistoryCause Third versions.now.source.items bytes.now (program_tree versions.now.old)) }
{
    let graphs = build_graphs(alloc, versions)?;
    let history = read_entries(alloc, bytes, &versions.source, graphs.old.edges())?;
    let chosen = choose(alloc, versions, &graphs, &history)?;
    Ok(Selection {
        history,
        graphs,
        chosen,
    })
}
