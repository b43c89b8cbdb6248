//! A source or two, and one more file.
ghost use Rattle.std.specs.Prelude.{◌≡◌, MatchResult};
ghost use Rattle.dv_outside.specs.Outside.{NeverFalls};
ghost use Rattle.command_files.specs.Files.{IsOpened, IsOpenCause, AreOpened, AreOpenCause, Sees};

use crate::files::{SOURCE_AND_ONE, fetch_file, read_source};
use crate::versions::{Versions, read_versions};
use command_refusals::{Refusal, Role};
use csub_core::Program;
use dv_outside::Shelf;
use std::alloc::Global;

/// A source with its program, and the bytes of a second file.
#[derive(Drop)]
pub struct OpenedSource {
    /// The source.
    pub source: Vec<u8>,
    /// Its program.
    pub program: Program,
    /// The bytes.
    pub bytes: Vec<u8>,
}

/// Two versions, and the bytes of a third file.
#[derive(Drop)]
pub struct OpenedVersions {
    /// Both versions.
    pub versions: Versions,
    /// The bytes.
    pub bytes: Vec<u8>,
}

/// The source in the file of this name, in a role, and then the first `most` bytes of a second file, or all if it has fewer.
pub fn open_source<S: Shelf>(
    alloc: Global,
    role: Role,
    name: &str,
    second_name: &str,
    most: usize,
    shelf: &mut S,
) -> Result<OpenedSource, Refusal>
    ensures opened { Sees (S.answers shelf.old) (S.answers shelf.new) (λ seen. MatchResult result
        (IsOpened name.now second_name.now most seen)
        (IsOpenCause role name.now second_name.now most seen)) }
    ensures counts { NeverFalls (S.faults shelf.old) (S.faults shelf.new) }
    ensures same { S.files shelf.new ≡ S.files shelf.old }
{
    let source = fetch_file(shelf, name, SOURCE_AND_ONE)?;
    let program = read_source(alloc, role, &source)?;
    let bytes = fetch_file(shelf, second_name, most)?;
    Ok(OpenedSource {
        source,
        program,
        bytes,
    })
}

/// The versions in the files of these names, and then the first `most` bytes of a third file, or all if it has fewer.
pub fn open_versions<S: Shelf>(
    alloc: Global,
    old_name: &str,
    new_name: &str,
    third_name: &str,
    most: usize,
    shelf: &mut S,
) -> Result<OpenedVersions, Refusal>
    ensures opened { Sees (S.answers shelf.old) (S.answers shelf.new) (λ seen. MatchResult result
        (AreOpened old_name.now new_name.now third_name.now most seen)
        (AreOpenCause old_name.now new_name.now third_name.now most seen)) }
    ensures counts { NeverFalls (S.faults shelf.old) (S.faults shelf.new) }
    ensures same { S.files shelf.new ≡ S.files shelf.old }
{
    let versions = read_versions(alloc, old_name, new_name, shelf)?;
    let bytes = fetch_file(shelf, third_name, most)?;
    Ok(OpenedVersions { versions, bytes })
}
