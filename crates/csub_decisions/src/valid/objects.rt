//! Whether the objects of a function have types that they may have, and few cells.
ghost use Rattle.std.specs.Prelude.{◌+◌, ◌-◌, ◌≤◌, ◌↔◌, All, IsTrue, sum_by};
ghost use Rattle.std.specs.Option.{SomeIff};
ghost use Rattle.csub_objects.specs.declared.types.Member.{Member};
ghost use Rattle.csub_semantics.specs.declared.function.LocalVar.{LocalVar};
ghost use Rattle.csub_objects.specs.Meaning.{type_tree};
ghost use Rattle.csub_objects.specs.Types.{cells, IsSized};
ghost use Rattle.csub_semantics.specs.Syntax.{function_tree};
ghost use Rattle.csub_validity.specs.Valid.{AreDeclared, IsParameter, frame_cells, most_cells};
ghost use Rattle.csub_limits.specs.Counts.{param_cells, local_cells};

use csub_objects::{CType, cells, is_sized};
use csub_semantics::{Function, LocalVar, Member};

/// The most cells of a function's frame.
const MOST_CELLS: u64 = 4096;

/// Whether a frame of the function has at most 4,096 cells: those of its objects, and one for each temporary.
pub(crate) fn has_few_cells(function: &Function) -> bool
    ensures { IsTrue result ↔ (frame_cells (function_tree function.now) ≤ most_cells) }
{
    match room_in_frame(function) {
        None => false,
        Some(room) => u64::from(function.temps) <= room,
    }
}

/// What a frame of 4,096 cells has left for temporaries.
fn room_in_frame(function: &Function) -> Option<u64>
    ensures { SomeIff result (sum_by param_cells function.now.params.items + sum_by local_cells function.now.locals.items ≤ most_cells) (most_cells - (sum_by param_cells function.now.params.items + sum_by local_cells function.now.locals.items)) }
{
    let room = room_behind_params(&function.params, MOST_CELLS)?;
    room_behind_locals(&function.locals, room)
}

fn room_behind_params(params: &[Member], most: u64) -> Option<u64>
    requires { most ≤ 65536 }
    ensures { SomeIff result (sum_by param_cells params.now ≤ most) (most - sum_by param_cells params.now) }
{
    let mut room = most;
    for param in params {
        room = room_behind(&param.ctype, room)?;
    }
    Some(room)
}

fn room_behind_locals(locals: &[LocalVar], most: u64) -> Option<u64>
    requires { most ≤ 65536 }
    ensures { SomeIff result (sum_by local_cells locals.now ≤ most) (most - sum_by local_cells locals.now) }
{
    let mut room = most;
    for local in locals {
        room = room_behind(&local.ctype, room)?;
    }
    Some(room)
}

/// What is left of `room` behind the cells of an object.
pub(crate) fn room_behind(ctype: &CType, room: u64) -> Option<u64>
    requires { room ≤ 65536 }
    ensures { SomeIff result (cells (type_tree ctype.now) ≤ room) (room - cells (type_tree ctype.now)) }
{
    room.checked_sub(cells(ctype))
}

/// Whether each parameter is a number or refers to an array of elements that may be, and each local has a type that an
/// object may have.
pub(crate) fn are_declared(function: &Function) -> bool
    ensures { IsTrue result ↔ AreDeclared (function_tree function.now) }
{
    are_parameters(&function.params) && are_sized(&function.locals)
}

fn are_parameters(params: &[Member]) -> bool
    ensures { IsTrue result ↔ All (λ (p : Member). IsParameter (type_tree p.ctype)) params.now }
{
    for param in params {
        if !is_parameter(&param.ctype) {
            return false;
        }
    }
    true
}

/// Whether a type is one that a parameter may have.
fn is_parameter(ctype: &CType) -> bool
    ensures { IsTrue result ↔ IsParameter (type_tree ctype.now) }
{
    match ctype {
        CType::Num(_) => true,
        CType::Loose(element) => is_sized(element.ctype()),
        CType::Array(_, _) | CType::Struct(_, _) => false,
    }
}

fn are_sized(locals: &[LocalVar]) -> bool
    ensures { IsTrue result ↔ All (λ (v : LocalVar). IsSized (type_tree v.ctype)) locals.now }
{
    for local in locals {
        if !is_sized(&local.ctype) {
            return false;
        }
    }
    true
}
