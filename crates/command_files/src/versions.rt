//! The two versions that a command names.
ghost use Rattle.std.specs.Prelude.{◌≡◌, IfOk, MatchResult};
ghost use Rattle.dv_outside.specs.Outside.{NeverFalls};
ghost use Rattle.csub_semantics.specs.Syntax.{program_tree};
ghost use Rattle.command_files.specs.Files.{AreRead, IsVersionsCause, Sees};
ghost use Rattle.command_files.specs.Steps.{AreGraphs};

use crate::files::{SOURCE_AND_ONE, fetch_file, read_source};
use command_refusals::{Refusal, Role};
use csub_core::Program;
use dv_outside::Shelf;
use flow_graph::Graph;
use std::alloc::{AllocError, Global};

/// The bytes of both sources, and their programs.
#[derive(Drop)]
pub struct Versions {
    /// The old source.
    pub source: Vec<u8>,
    /// The new source.
    pub new_source: Vec<u8>,
    /// The old program.
    pub old: Program,
    /// The new program.
    pub new: Program,
}

/// The graphs of two versions.
#[derive(Drop)]
pub struct Graphs {
    /// The old program's.
    pub old: Graph,
    /// The new program's.
    pub new: Graph,
}

/// The versions in the files of these names.
pub fn read_versions<S: Shelf>(
    alloc: Global,
    old_name: &str,
    new_name: &str,
    shelf: &mut S,
) -> Result<Versions, Refusal>
    ensures versions { Sees (S.answers shelf.old) (S.answers shelf.new) (λ seen. MatchResult result
        (AreRead old_name.now new_name.now seen)
        (IsVersionsCause old_name.now new_name.now seen)) }
    ensures counts { NeverFalls (S.faults shelf.old) (S.faults shelf.new) }
    ensures same { S.files shelf.new ≡ S.files shelf.old }
{
    let source = fetch_file(shelf, old_name, SOURCE_AND_ONE)?;
    let old = read_source(alloc, Role::Old, &source)?;
    let new_source = fetch_file(shelf, new_name, SOURCE_AND_ONE)?;
    let new = read_source(alloc, Role::New, &new_source)?;
    Ok(Versions {
        source,
        new_source,
        old,
        new,
    })
}

/// The graphs of these versions. An `Err` is want of memory.
pub fn build_graphs(alloc: Global, versions: &Versions) -> Result<Graphs, AllocError>
    ensures { IfOk result (AreGraphs (program_tree versions.now.old) (program_tree versions.now.new)) }
{
    let old = Graph::build(alloc, &versions.old)?;
    let new = Graph::build(alloc, &versions.new)?;
    Ok(Graphs { old, new })
}
