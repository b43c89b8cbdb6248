//! Objects of file scope (C11 6.9.2).
ghost use Rattle.std.specs.Prelude.{◌≡◌, IfOk, OnOk, map, option_map};
ghost use Rattle.csub_objects.specs.Meaning.{type_tree};
ghost use Rattle.csub_scopes.specs.Meanings.{meaning_of, scope_of};
ghost use Rattle.csub_tree.specs.Declarations.{declarator_tree, declare_tree, init_tree};
ghost use Rattle.csub_rules.specs.Objects.{declaration_fault, global_meaning, initial_fault, object_fault, objects_fault, past_declaration, past_object, past_objects};

use crate::file::{check_name, declare_name};
use csub_declare::{base_type, check_base, check_init, check_slot};
use csub_objects::{CType, copy_type};
use csub_rules::{Fault, earlier};
use csub_scopes::{Meaning, Scope};
use csub_tree::{Declarator, Declare, Init};
use std::alloc::{AllocError, Global};

/// What a declared object means. An `Err` is want of memory.
pub fn global_meaning(ctype: &Option<CType>) -> Result<Meaning, AllocError>
    ensures { IfOk result (λ made. meaning_of made ≡ global_meaning (option_map type_tree ctype.now)) }
{
    match ctype {
        None => Ok(Meaning::Untyped),
        Some(ctype) => Ok(Meaning::Global(copy_type(ctype)?)),
    }
}

/// The initialiser of an object, whose values are constants (C11 6.7.9p4).
fn check_initial(scope: &Scope, ctype: Option<&CType>, init: &Option<Init>) -> Option<Fault>
    ensures { result ≡ initial_fault (scope_of scope.now) (option_map (λ t. type_tree t.now) ctype.entry) (option_map init_tree init.now) }
{
    check_init(scope, true, ctype, init.as_ref()?)
}

/// A declared object behind a type: the first rule that it breaks. It is declared then.
fn check_object(
    alloc: Global,
    scope: &mut Scope,
    base: &Option<CType>,
    d: &Declarator,
) -> Result<Option<Fault>, AllocError>
    ensures fault { IfOk result (λ fault. fault ≡ object_fault (scope_of scope.old) (option_map type_tree base.now) (declarator_tree d.now)) }
    ensures past { OnOk result (scope_of scope.new ≡ past_object (scope_of scope.old) (option_map type_tree base.now) (declarator_tree d.now)) }
{
    let named = check_name(scope, &d.name);
    let slot = check_slot(alloc, scope, base, d.name.span, d.dims.as_slice())?;
    let meaning = global_meaning(&slot.ctype)?;
    declare_name(scope, &d.name.text, meaning)?;
    let value = check_initial(scope, slot.ctype.as_ref(), &d.init);
    Ok(earlier(earlier(named, slot.fault), value))
}

/// Declared objects behind a type.
fn check_objects(
    alloc: Global,
    scope: &mut Scope,
    base: &Option<CType>,
    vars: &[Declarator],
) -> Result<Option<Fault>, AllocError>
    ensures fault { IfOk result (λ fault. fault ≡ objects_fault (scope_of scope.old) (option_map type_tree base.now) (map declarator_tree vars.now)) }
    ensures past { OnOk result (scope_of scope.new ≡ past_objects (scope_of scope.old) (option_map type_tree base.now) (map declarator_tree vars.now)) }
{
    let mut least = None;
    for d in vars {
        let fault = check_object(alloc, scope, base, d)?;
        least = earlier(least, fault);
    }
    Ok(least)
}

/// The first rule that a declaration at file scope breaks. Its objects are declared then. An `Err` is want of memory.
pub fn check_declaration(
    alloc: Global,
    scope: &mut Scope,
    d: &Declare,
) -> Result<Option<Fault>, AllocError>
    ensures fault { IfOk result (λ fault. fault ≡ declaration_fault (scope_of scope.old) (declare_tree d.now)) }
    ensures past { OnOk result (scope_of scope.new ≡ past_declaration (scope_of scope.old) (declare_tree d.now)) }
{
    let base = base_type(scope, &d.base)?;
    let broken = check_base(scope, &d.base);
    let objects = check_objects(alloc, scope, &base, d.vars.as_slice())?;
    Ok(earlier(broken, objects))
}
