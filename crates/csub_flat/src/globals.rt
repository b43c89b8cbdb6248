//! The slots of globals.
ghost use Rattle.std.specs.Prelude.{◌≡◌, ◌≤◌, map, IfOk};
ghost use Rattle.csub_semantics.specs.Types.{global_tree};
ghost use Rattle.csub_flat.specs.Frames.{objects_size, global_object};
ghost use Rattle.csub_flat.specs.Globals.{AreSlotsOf};

use crate::places::slots_of;
use csub_semantics::{GlobalVar, Text};
use std::alloc::{AllocError, Global};
use std::collections::BTreeMap;

/// The slots of globals by their names, of which the first of a name counts; each global has a slot for each of its
/// cells. An `Err` is want of memory.
pub fn number_globals(
    alloc: Global,
    globals: &[GlobalVar],
) -> Result<BTreeMap<Text, u32>, AllocError>
    requires { objects_size (map global_object (map global_tree globals.now)) ≤ 65536 }
    ensures { IfOk result (AreSlotsOf (map global_object (map global_tree globals.now))) }
{
    let mut slots = BTreeMap::new(alloc);
    let mut slot = 0;
    for i in 0..globals.len() {
        let global = &globals[i];
        if !slots.contains_key(&global.name) {
            slots.insert(global.name.copy()?, slot)?;
        }
        slot += slots_of(&global.ctype);
    }
    Ok(slots)
}

/// How many slots globals have.
pub fn globals_size(globals: &[GlobalVar]) -> u32
    requires { objects_size (map global_object (map global_tree globals.now)) ≤ 65536 }
    ensures { result ≡ objects_size (map global_object (map global_tree globals.now)) }
{
    let mut size = 0;
    for i in 0..globals.len() {
        size += slots_of(&globals[i].ctype);
    }
    size
}
