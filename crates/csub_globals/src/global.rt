//! Objects of file scope (C11 6.9.2).
ghost use Rattle.std.specs.Prelude.{◌≡◌, ◌+◌, ◌++◌, ◌∷◌, [], IfOk, OnOk, map, option_map, sum_by};
ghost use Rattle.csub_objects.specs.Meaning.{type_tree};
ghost use Rattle.csub_objects.specs.Types.{cells};
ghost use Rattle.csub_scopes.specs.Meanings.{scope_of};
ghost use Rattle.csub_semantics.specs.Types.{GlobalTree, global_tree};
ghost use Rattle.csub_tree.specs.Declarations.{declarator_tree, declare_tree};
ghost use Rattle.csub_tree.specs.Units.{item_tree};
ghost use Rattle.csub_rules.specs.Declarators.{base_type, object_type};
ghost use Rattle.csub_rules.specs.Heads.{sure_type};
ghost use Rattle.csub_rules.specs.Items.{past_item};
ghost use Rattle.csub_rules.specs.Objects.{past_declaration, past_object, past_objects};
ghost use Rattle.csub_units.specs.Views.{file_of};
ghost use Rattle.csub_resolution.specs.Programs.{global_by, globals_by, globals_in, globals_of, program_of};

use crate::initial_numbers::initial;
use crate::items::declare_item;
use csub_declare::{base_type, check_slot};
use csub_objects::{CType, cells};
use csub_scopes::Scope;
use csub_semantics::GlobalVar;
use csub_tree::{Declarator, Declare, Item};
use csub_units::File;
use csub_units::file::declare_name;
use csub_units::objects::global_meaning;
use csub_units::params::sure_type;
use std::alloc::{AllocError, Global};

/// Declares an object behind a type, and gives its type.
fn declare_object(
    alloc: Global,
    scope: &mut Scope,
    base: &Option<CType>,
    d: &Declarator,
) -> Result<CType, AllocError>
    ensures ctype { IfOk result (λ made. type_tree made ≡ sure_type (object_type (scope_of scope.old) (option_map type_tree base.now) (declarator_tree d.now).dims)) }
    ensures past { OnOk result (scope_of scope.new ≡ past_object (scope_of scope.old) (option_map type_tree base.now) (declarator_tree d.now)) }
{
    let slot = check_slot(alloc, scope, base, d.name.span, d.dims.as_slice())?;
    let meaning = global_meaning(&slot.ctype)?;
    declare_name(scope, &d.name.text, meaning)?;
    sure_type(&slot.ctype)
}

/// Declares and appends an object behind a type.
fn lower_object(
    alloc: Global,
    scope: &mut Scope,
    base: &Option<CType>,
    made: &mut Vec<GlobalVar>,
    d: &Declarator,
) -> Result<(), AllocError>
    ensures made { OnOk result (map global_tree made.new.items ≡ map global_tree made.old.items ++ global_by (scope_of scope.old) (option_map type_tree base.now) (declarator_tree d.now) ∷ []) }
    ensures past { OnOk result (scope_of scope.new ≡ past_object (scope_of scope.old) (option_map type_tree base.now) (declarator_tree d.now)) }
{
    let name = d.name.text.copy()?;
    let ctype = declare_object(alloc, scope, base, d)?;
    let initial = initial(alloc, scope, &d.init, &ctype)?;
    made.push(GlobalVar {
        name,
        ctype,
        initial,
    })?;
    Ok(())
}

/// The same of objects behind a type.
fn lower_objects(
    alloc: Global,
    scope: &mut Scope,
    base: &Option<CType>,
    made: &mut Vec<GlobalVar>,
    vars: &[Declarator],
) -> Result<(), AllocError>
    ensures made { OnOk result (map global_tree made.new.items ≡ map global_tree made.old.items ++ globals_by (scope_of scope.old) (option_map type_tree base.now) (map declarator_tree vars.now)) }
    ensures past { OnOk result (scope_of scope.new ≡ past_objects (scope_of scope.old) (option_map type_tree base.now) (map declarator_tree vars.now)) }
{
    for d in vars {
        lower_object(alloc, scope, base, made, d)?;
    }
    Ok(())
}

/// The same of the objects of a declaration.
fn lower_declaration(
    alloc: Global,
    scope: &mut Scope,
    made: &mut Vec<GlobalVar>,
    d: &Declare,
) -> Result<(), AllocError>
    ensures made { OnOk result (map global_tree made.new.items ≡ map global_tree made.old.items ++ globals_by (scope_of scope.old) (base_type (scope_of scope.old) d.now.base) (declare_tree d.now).vars) }
    ensures past { OnOk result (scope_of scope.new ≡ past_declaration (scope_of scope.old) (declare_tree d.now)) }
{
    let base = base_type(scope, &d.base)?;
    lower_objects(alloc, scope, &base, made, d.vars.as_slice())
}

/// Appends the objects of an item, and declares what it declares.
fn lower_item(
    alloc: Global,
    file: &mut File,
    made: &mut Vec<GlobalVar>,
    item: &Item,
) -> Result<(), AllocError>
    ensures made { OnOk result (map global_tree made.new.items ≡ map global_tree made.old.items ++ globals_of (file_of file.old) (item_tree item.now)) }
    ensures past { OnOk result (file_of file.new ≡ past_item (file_of file.old) (item_tree item.now)) }
{
    match item {
        Item::Object(d) => lower_declaration(alloc, &mut file.here.scope, made, d),
        _ => declare_item(alloc, file, item),
    }
}

/// The objects of items, in their order; they are declared then.
fn globals_in(alloc: Global, file: &mut File, items: &[Item]) -> Result<Vec<GlobalVar>, AllocError>
    ensures { IfOk result (λ made. map global_tree made.items ≡ globals_in (file_of file.old) (map item_tree items.now)) }
{
    let mut made = Vec::new(alloc);
    for item in items {
        lower_item(alloc, file, &mut made, item)?;
    }
    Ok(made)
}

/// The objects of file scope of the program that a source of these items stands for, in their order, with a number for each
/// of their cells. An `Err` is want of memory, a full count, or a type with more than 65,536 cells.
pub fn globals(alloc: Global, items: &[Item]) -> Result<Vec<GlobalVar>, AllocError>
    ensures { IfOk result (λ made. map global_tree made.items ≡ (program_of (record { items = map item_tree items.now })).globals) }
{
    let mut file = File::new(alloc);
    globals_in(alloc, &mut file, items)
}

/// More cells. An `Err` is more than 65,536 cells of an object, or too many.
fn with_cells(count: u64, ctype: &CType) -> Result<u64, AllocError>
    ensures { IfOk result (λ all. all ≡ count + cells (type_tree ctype.now)) }
{
    let own = cells(ctype);
    if own > 65_536 {
        return Err(AllocError);
    }
    match count.checked_add(own) {
        None => Err(AllocError),
        Some(all) => Ok(all),
    }
}

/// Adds the cells of objects behind a type, which are declared then.
fn count_objects(
    alloc: Global,
    scope: &mut Scope,
    base: &Option<CType>,
    count: u64,
    vars: &[Declarator],
) -> Result<u64, AllocError>
    ensures count { IfOk result (λ all. all ≡ count + sum_by (λ (g : GlobalTree). cells g.ctype) (globals_by (scope_of scope.old) (option_map type_tree base.now) (map declarator_tree vars.now))) }
    ensures past { OnOk result (scope_of scope.new ≡ past_objects (scope_of scope.old) (option_map type_tree base.now) (map declarator_tree vars.now)) }
{
    let mut all = count;
    for d in vars {
        let ctype = declare_object(alloc, scope, base, d)?;
        all = with_cells(all, &ctype)?;
    }
    Ok(all)
}

/// The same of the objects of a declaration.
fn count_declaration(
    alloc: Global,
    scope: &mut Scope,
    count: u64,
    d: &Declare,
) -> Result<u64, AllocError>
    ensures count { IfOk result (λ all. all ≡ count + sum_by (λ (g : GlobalTree). cells g.ctype) (globals_by (scope_of scope.old) (base_type (scope_of scope.old) d.now.base) (declare_tree d.now).vars)) }
    ensures past { OnOk result (scope_of scope.new ≡ past_declaration (scope_of scope.old) (declare_tree d.now)) }
{
    let base = base_type(scope, &d.base)?;
    count_objects(alloc, scope, &base, count, d.vars.as_slice())
}

/// Adds the cells of the objects of an item, and declares what it declares.
fn count_item(alloc: Global, file: &mut File, count: u64, item: &Item) -> Result<u64, AllocError>
    ensures count { IfOk result (λ all. all ≡ count + sum_by (λ (g : GlobalTree). cells g.ctype) (globals_of (file_of file.old) (item_tree item.now))) }
    ensures past { OnOk result (file_of file.new ≡ past_item (file_of file.old) (item_tree item.now)) }
{
    match item {
        Item::Object(d) => count_declaration(alloc, &mut file.here.scope, count, d),
        _ => {
            declare_item(alloc, file, item)?;
            Ok(count)
        }
    }
}

/// How many cells the objects of items have, which are declared then.
fn cells_in(alloc: Global, file: &mut File, items: &[Item]) -> Result<u64, AllocError>
    ensures { IfOk result (λ all. all ≡ sum_by (λ (g : GlobalTree). cells g.ctype) (globals_in (file_of file.old) (map item_tree items.now))) }
{
    let mut all = 0;
    for item in items {
        all = count_item(alloc, file, all, item)?;
    }
    Ok(all)
}

/// How many cells the objects of file scope have, told without making their contents. An `Err` is want of memory, a full count,
/// or a type with more than 65,536 cells.
pub fn global_cells(alloc: Global, items: &[Item]) -> Result<u64, AllocError>
    ensures { IfOk result (λ all. all ≡ sum_by (λ (g : GlobalTree). cells g.ctype) (program_of (record { items = map item_tree items.now })).globals) }
{
    let mut file = File::new(alloc);
    cells_in(alloc, &mut file, items)
}
