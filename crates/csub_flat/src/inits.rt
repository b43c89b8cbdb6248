//! The flat copy of an initialiser: its steps, made in one pass over its entries.
ghost use Rattle.std.specs.Prelude.{◌≡◌, ◌≤◌, ◌+◌, ◌++◌, Some, map, IfOk};
ghost use Rattle.csub_objects.specs.Meaning.{type_tree};
ghost use Rattle.csub_objects.specs.Types.{cells, number_kind};
ghost use Rattle.csub_semantics.specs.Trees.{object, owner_tree, expr_tree};
ghost use Rattle.csub_semantics.specs.Labels.{listed, init_tree, inits_of};
ghost use Rattle.csub_flat.specs.Flatten.{cleared, flattened, flat_writes, variable_slot};
ghost use Rattle.csub_flat.specs.Fits.{FitsExpr, FitsInit, IsBegun};
ghost use Rattle.csub_flat.specs.Scopes.{globals_at, function_at};
ghost use Rattle.csub_flat.specs.Seen.{write_seen};
ghost use Rattle.csub_flat.specs.Trees.{writes};

use crate::flat::FlatWrite;
use crate::flatten::{flatten_expr, object_slot};
use crate::places::slots_of;
use crate::scope::Scope;
use csub_objects::{number_kind, part_type};
use csub_semantics::{CType, IntKind, Owner, RExpr, RInit};
use std::alloc::{AllocError, Global};

/// Adds the step that clears so many slots from one on, where there are any. An `Err` is want of memory.
fn push_zeros(slot: u32, count: u32, steps: &mut Vec<FlatWrite>) -> Result<(), AllocError>
    ensures { IfOk result (λ _. map write_seen steps.new.items ≡ map write_seen steps.old.items ++ cleared slot count) }
{
    if count == 0 {
        return Ok(());
    }
    steps.push(FlatWrite::Zeros(slot, count))?;
    Ok(())
}

/// The step that writes a number to a slot. An `Err` is want of memory.
fn flatten_value(
    alloc: Global,
    scope: Scope<'_>,
    slot: u32,
    kind: IntKind,
    value: &RExpr,
) -> Result<FlatWrite, AllocError>
    requires { FitsExpr (globals_at scope) (function_at scope) (expr_tree value.now) }
    ensures { IfOk result (λ made. write_seen made ≡ writes slot kind (flattened (globals_at scope.entry) (function_at scope.entry) (expr_tree value.now))) }
{
    Ok(FlatWrite::Value(slot, kind, flatten_expr(alloc, scope, value)?))
}

/// Adds the steps of an initialiser of an object, or of a part of one, whose first slot is given. An `Err` is want of
/// memory.
#[cycle(initialising)]
fn flatten_init(
    alloc: Global,
    scope: Scope<'_>,
    init: &RInit,
    ctype: &CType,
    slot: u32,
    steps: &mut Vec<FlatWrite>,
) -> Result<(), AllocError>
    requires fits { FitsInit (globals_at scope) (function_at scope) (Some (type_tree ctype.now)) (init_tree init.now) }
    requires room { slot + cells (type_tree ctype.now) ≤ 4096 }
    ensures { IfOk result (λ _. map write_seen steps.new.items ≡ map write_seen steps.old.items ++ flat_writes (globals_at scope.entry) (function_at scope.entry) (type_tree ctype.now) slot (init_tree init.now)) }
{
    match init {
        RInit::One(value) => {
            let kind = number_kind(ctype);
            steps.push(flatten_value(alloc, scope, slot, kind, value)?)?;
            Ok(())
        }
        RInit::List(entries) => {
            flatten_inits(alloc, scope, entries.as_slice(), ctype, slot, steps)
        }
    }
}

/// Adds the steps of a list of initialisers of the parts of an object: those of each entry, and then that which clears
/// all other parts. An `Err` is want of memory.
#[cycle(initialising)]
fn flatten_inits(
    alloc: Global,
    scope: Scope<'_>,
    entries: &[RInit],
    whole: &CType,
    slot: u32,
    steps: &mut Vec<FlatWrite>,
) -> Result<(), AllocError>
    requires fits { FitsInit (globals_at scope) (function_at scope) (Some (type_tree whole.now)) (listed (inits_of (map init_tree entries.now))) }
    requires room { slot + cells (type_tree whole.now) ≤ 4096 }
    ensures { IfOk result (λ _. map write_seen steps.new.items ≡ map write_seen steps.old.items ++ flat_writes (globals_at scope.entry) (function_at scope.entry) (type_tree whole.now) slot (listed (inits_of (map init_tree entries.now)))) }
{
    let end = slot + slots_of(whole);
    let mut at = slot;
    let mut i = 0;
    for entry in entries {
        let Some(part) = part_type(whole, i) else {
            unreachable!();
        };
        flatten_init(alloc, scope, entry, part, at, steps)?;
        at += slots_of(part);
        i += 1;
    }
    push_zeros(at, end - at, steps)
}

/// The steps of an initialiser of an object. An `Err` is want of memory.
///
/// This takes a pass over the initialiser, with what [`flatten_expr`] takes for each expression.
pub fn flatten_begin(
    alloc: Global,
    scope: Scope<'_>,
    owner: &Owner,
    ctype: &CType,
    init: &RInit,
) -> Result<Vec<FlatWrite>, AllocError>
    requires { IsBegun (globals_at scope) (function_at scope) (owner_tree owner.now) (type_tree ctype.now) (init_tree init.now) }
    ensures { IfOk result (λ made. map write_seen made.items ≡ flat_writes (globals_at scope.entry) (function_at scope.entry) (type_tree ctype.now) (variable_slot (globals_at scope.entry) (function_at scope.entry) (object (owner_tree owner.now) (type_tree ctype.now))) (init_tree init.now)) }
{
    let Owner::Local(name, number) = owner else {
        unreachable!();
    };
    let slot = object_slot(scope, name, *number);
    let mut steps = Vec::new(alloc);
    flatten_init(alloc, scope, init, ctype, slot, &mut steps)?;
    Ok(steps)
}
