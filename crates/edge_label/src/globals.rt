//! Objects of file scope with the numbers of their codes.
ghost use Rattle.std.specs.Prelude.{◌≡◌, List, [], ◌∷◌, ◌++◌, IsTrue, IfOk, OnOk, map};
ghost use Rattle.std.specs.List.{All};
ghost use Rattle.csub_objects.specs.Meaning.{type_tree};
ghost use Rattle.csub_semantics.specs.Types.{GlobalTree, global_tree};
ghost use Rattle.csub_semantics.specs.Globals.{globals_of};
ghost use Rattle.edge_label.specs.Numbers.{HasEachOnce};
ghost use Rattle.edge_label.specs.Indices.{IsIndex};
ghost use Rattle.edge_label.specs.Known.{AreStructs};
ghost use Rattle.edge_label.specs.Tables.{Extend, AreTables, IsTypeNumber, IsGlobalNumber, AppendsGlobals};
ghost use Rattle.edge_label.specs.Uses.{Tags, IsTagged};
ghost use Rattle.edge_label.specs.declared.table.Tables.{Tables};

use crate::structs::{TagNumbers, push_short};
use crate::table::Tables;
use csub_semantics::{CType, GlobalVar};
use label_code::{NameSet, push_global};
use std::alloc::{AllocError, Global};
use std::collections::HashMap;

/// Numbers of globals, each by the global's name.
#[derive(Drop)]
pub struct GlobalNumbers<'a> {
    /// The numbers by the names.
    pub by_name: HashMap<&'a [u8], u64>,
}

/// The numbers of globals by their names: of two with one name the first counts. Where tags are trusted, each struct in
/// the types of globals has the members of its tag, and those are gone over once for each tag. An `Err` is want of
/// memory; the tables may have some more of the types and of the globals then.
pub fn number_globals<'a>(
    alloc: Global,
    tables: &mut Tables,
    trusted: bool,
    globals: &'a [GlobalVar],
) -> Result<GlobalNumbers<'a>, AllocError>
    requires tagged { IsTrue trusted → (by_tag : Tags) × All (λ g. IsTagged by_tag g.ctype) (map global_tree globals.now) }
    ensures numbers { IfOk result (λ numbers. AreTables tables.old → IsIndex tables.new (map global_tree globals.now) numbers.by_name.entries) }
    ensures sound { AreTables tables.old → AreTables tables.new }
    ensures grows { Extend tables.old tables.new }
{
    let mut tags = TagNumbers::new(alloc, trusted);
    let mut numbers = GlobalNumbers {
        by_name: HashMap::new(alloc),
    };
    for global in globals {
        add_number(alloc, tables, &mut tags, &mut numbers, global)?;
    }
    Ok(numbers)
}

/// Adds the number of one more global, unless its name has one.
fn add_number<'a>(
    alloc: Global,
    tables: &mut Tables,
    tags: &mut TagNumbers<'a>,
    numbers: &mut GlobalNumbers<'a>,
    global: &'a GlobalVar,
) -> Result<(), AllocError>
    ensures numbers { OnOk result ((by_tag : Tags) (before : List GlobalTree) → (IsTrue tags.old.trusted → IsTagged by_tag (global_tree global.now).ctype) →
        AreStructs by_tag tables.old.structs tags.old → IsIndex tables.old before numbers.old.by_name.entries →
        IsIndex tables.new (before ++ global_tree global.now ∷ []) numbers.new.by_name.entries) }
    ensures structs { (by_tag : Tags) → (IsTrue tags.old.trusted → IsTagged by_tag (global_tree global.now).ctype) →
        AreStructs by_tag tables.old.structs tags.old → AreStructs by_tag tables.new.structs tags.new }
    ensures grows { Extend tables.old tables.new }
    ensures once { HasEachOnce tables.old.parts → HasEachOnce tables.new.parts }
    ensures trusted { tags.new.trusted ≡ tags.old.trusted }
{
    let name = global.name.bytes();
    if numbers.by_name.contains_key(name) {
        return Ok(());
    }
    let number = number_global(alloc, tables, tags, global)?;
    numbers.by_name.insert(name, number)?;
    Ok(())
}

/// The number of a global's code, and before it that of its type.
fn number_global<'a>(
    alloc: Global,
    tables: &mut Tables,
    tags: &mut TagNumbers<'a>,
    global: &'a GlobalVar,
) -> Result<u64, AllocError>
    ensures number { IfOk result (λ n. (by_tag : Tags) → (IsTrue tags.old.trusted → IsTagged by_tag (global_tree global.now).ctype) →
        AreStructs by_tag tables.old.structs tags.old → IsGlobalNumber tables.new n (global_tree global.now)) }
    ensures structs { (by_tag : Tags) → (IsTrue tags.old.trusted → IsTagged by_tag (global_tree global.now).ctype) →
        AreStructs by_tag tables.old.structs tags.old → AreStructs by_tag tables.new.structs tags.new }
    ensures grows { Extend tables.old tables.new }
    ensures once { HasEachOnce tables.old.parts → HasEachOnce tables.new.parts }
    ensures trusted { tags.new.trusted ≡ tags.old.trusted }
{
    let ctype = number_ctype(alloc, tables, tags, &global.ctype)?;
    let mut code = Vec::new(alloc);
    push_global(&mut code, global, ctype)?;
    tables.parts.number(code)
}

/// The number of a type.
fn number_ctype<'a>(
    alloc: Global,
    tables: &mut Tables,
    tags: &mut TagNumbers<'a>,
    ctype: &'a CType,
) -> Result<u64, AllocError>
    ensures number { IfOk result (λ n. (by_tag : Tags) → (IsTrue tags.old.trusted → IsTagged by_tag (type_tree ctype.now)) →
        AreStructs by_tag tables.old.structs tags.old → IsTypeNumber tables.new n (type_tree ctype.now)) }
    ensures structs { (by_tag : Tags) → (IsTrue tags.old.trusted → IsTagged by_tag (type_tree ctype.now)) →
        AreStructs by_tag tables.old.structs tags.old → AreStructs by_tag tables.new.structs tags.new }
    ensures grows { Extend tables.old tables.new }
    ensures once { HasEachOnce tables.old.parts → HasEachOnce tables.new.parts }
    ensures trusted { tags.new.trusted ≡ tags.old.trusted }
{
    let mut code = Vec::new(alloc);
    push_short(alloc, &mut code, &mut tables.structs, tags, ctype)?;
    tables.parts.number(code)
}

/// Appends the numbers of the globals of these names, each once, in the order of the names. An `Err` is want of memory.
pub fn push_numbers(
    code: &mut Vec<u64>,
    names: &NameSet<'_>,
    numbers: &GlobalNumbers<'_>,
) -> Result<(), AllocError>
    ensures { OnOk result ((tables : Tables) (globals : List GlobalTree) → IsIndex tables globals numbers.now.by_name.entries →
        AppendsGlobals tables (globals_of globals names.now) code.old.items code.new.items) }
{
    for name in &names.names {
        push_number(code, name, numbers)?;
    }
    Ok(())
}

fn push_number(
    code: &mut Vec<u64>,
    name: &[u8],
    numbers: &GlobalNumbers<'_>,
) -> Result<(), AllocError>
    ensures { OnOk result ((tables : Tables) (globals : List GlobalTree) → IsIndex tables globals numbers.now.by_name.entries →
        AppendsGlobals tables (globals_of globals (name.now ∷ [])) code.old.items code.new.items) }
{
    match numbers.by_name.get(name) {
        None => Ok(()),
        Some(number) => Ok(code.push(*number)?),
    }
}
