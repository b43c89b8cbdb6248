//! A table of the functions, by which one is found by its name without a look at the others.
ghost use Rattle.std.specs.Prelude.{◌≡◌, IfOk, OnOk, Some, if◌then◌else◌, bytes_eq};
ghost use Rattle.csub_objects.specs.Types.{Name};
ghost use Rattle.flow_graph.specs.Names.{number_of, AreNamed};

use crate::node::{GraphFunction, step};
use csub_semantics::Text;
use std::alloc::{AllocError, Global};
use std::collections::BTreeMap;

/// Enters the number of a function under its name, in the place of one that is there. An `Err` is want of memory.
fn put_name(names: &mut BTreeMap<Text, u32>, name: &Text, number: u32) -> Result<(), AllocError>
    ensures { OnOk result ((a : Name) → number_of names.new a ≡ (if bytes_eq name.now a then Some number else number_of names.old a)) }
{
    names.insert(name.copy()?, number)?;
    Ok(())
}

/// The numbers of functions by their names, of which the first of a name counts. An `Err` is want of memory.
pub fn list_names(
    alloc: Global,
    functions: &[GraphFunction],
) -> Result<BTreeMap<Text, u32>, AllocError>
    ensures { IfOk result (AreNamed functions.now) }
{
    let mut names = BTreeMap::new(alloc);
    for i in (0..functions.len()).rev() {
        let number = step(i)?;
        put_name(&mut names, &functions[i].name, number)?;
    }
    Ok(names)
}
