//! How many slots objects have.
ghost use Rattle.std.specs.Prelude.{◌≡◌, ◌≤◌, map};
ghost use Rattle.csub_objects.specs.Types.{cells, first_cell};
ghost use Rattle.csub_objects.specs.Meaning.{type_tree};
ghost use Rattle.csub_semantics.specs.Syntax.{local_tree};
ghost use Rattle.csub_flat.specs.Frames.{objects_size, as_object};
ghost use Rattle.csub_flat.specs.Fits.{MayStand};
ghost use Rattle.csub_flat.specs.Flatten.{cell_or};

use csub_objects::{CType, cells, first_cell};
use csub_semantics::{LocalVar, Member, Text};

/// How many slots an object of a type has.
pub fn slots_of(ctype: &CType) -> u32
    requires { cells (type_tree ctype.now) ≤ 65536 }
    ensures { result ≡ cells (type_tree ctype.now) }
{
    cells(ctype) as u32
}

/// How many slots of a struct are before its member of a name; 0 where there is no such member, as in no valid program.
pub fn slots_before(ctype: &CType, name: &Text) -> u32
    requires { MayStand (type_tree ctype.now) }
    ensures { result ≡ cell_or (first_cell name.now (type_tree ctype.now)) }
{
    match first_cell(ctype, name.bytes()) {
        Some(before) => before as u32,
        None => 0,
    }
}

/// How many slots parameters have.
pub fn params_size(params: &[Member]) -> u32
    requires { objects_size (map as_object params.now) ≤ 4096 }
    ensures { result ≡ objects_size (map as_object params.now) }
{
    let mut size = 0;
    for param in params {
        size += slots_of(&param.ctype);
    }
    size
}

/// How many slots locals have.
pub fn locals_size(locals: &[LocalVar]) -> u32
    requires { objects_size (map local_tree locals.now) ≤ 4096 }
    ensures { result ≡ objects_size (map local_tree locals.now) }
{
    let mut size = 0;
    for local in locals {
        size += slots_of(&local.ctype);
    }
    size
}
