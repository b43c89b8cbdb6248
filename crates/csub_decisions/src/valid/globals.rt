//! Whether objects of file scope are valid.
ghost use Rattle.std.specs.Prelude.{◌≢◌, ◌↔◌, ◌≤◌, AllPairs, IsTrue, length, map, sum_by};
ghost use Rattle.std.specs.List.{AllWithin};
ghost use Rattle.csub_semantics.specs.declared.types.GlobalVar.{GlobalVar};
ghost use Rattle.csub_semantics.specs.Types.{global_tree};
ghost use Rattle.csub_validity.specs.Valid.{AreGlobals, most_global_cells};
ghost use Rattle.csub_decisions.specs.ProgramChecks.{IsFilled, AreFilled, cells_of};

use crate::contents::are_contents;
use crate::valid::objects::room_behind;
use csub_objects::is_sized;
use csub_semantics::GlobalVar;

/// The most cells of the objects of file scope.
const MOST_CELLS: u64 = 65_536;

/// Whether the objects of file scope are few, have names of their own, and each an initial number for each of its cells.
pub(crate) fn are_globals(globals: &[GlobalVar]) -> bool
    ensures { IsTrue result ↔ AreGlobals (map global_tree globals.now) }
{
    has_few_cells(globals) && are_fine(globals)
}

/// Whether each object has a type that an object may have, an initial number for each of its cells, and a name of its own.
fn are_fine(globals: &[GlobalVar]) -> bool
    ensures { IsTrue result ↔ (AreFilled globals.now × AllPairs (λ (g h : GlobalVar). g.name ≢ h.name) globals.now) }
{
    are_filled(globals) && names_differ(globals)
}

/// Whether the objects have at most 65,536 cells.
fn has_few_cells(globals: &[GlobalVar]) -> bool
    ensures { IsTrue result ↔ (sum_by cells_of globals.now ≤ most_global_cells) }
{
    let mut room = MOST_CELLS;
    for global in globals {
        match room_behind(&global.ctype, room) {
            None => return false,
            Some(rest) => room = rest,
        }
    }
    true
}

fn are_filled(globals: &[GlobalVar]) -> bool
    ensures { IsTrue result ↔ AreFilled globals.now }
{
    for global in globals {
        if !is_filled(global) {
            return false;
        }
    }
    true
}

/// Whether an object has a type that an object may have, and an initial number for each of its cells.
fn is_filled(global: &GlobalVar) -> bool
    ensures { IsTrue result ↔ IsFilled (global_tree global.now) }
{
    is_sized(&global.ctype) && are_contents(&global.ctype, &global.initial)
}

/// Whether no two of the objects have one name.
fn names_differ(globals: &[GlobalVar]) -> bool
    ensures { IsTrue result ↔ AllPairs (λ (g h : GlobalVar). g.name ≢ h.name) globals.now }
{
    for i in 0..globals.len() {
        if !is_new(globals, i, globals[i].name.bytes()) {
            return false;
        }
    }
    true
}

/// Whether none of the first `count` objects has a name.
fn is_new(globals: &[GlobalVar], count: usize, name: &[u8]) -> bool
    requires { count ≤ length globals.now }
    ensures { IsTrue result ↔ AllWithin (λ (g : GlobalVar). g.name ≢ name.now) globals.now 0 count }
{
    for i in 0..count {
        if globals[i].name.bytes() == name {
            return false;
        }
    }
    true
}
