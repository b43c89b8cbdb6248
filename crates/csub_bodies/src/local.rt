//! Declarations in blocks (C11 6.7).
ghost use Rattle.std.specs.Prelude.{◌≡◌, IfOk, OnOk, map, option_map};
ghost use Rattle.csub_objects.specs.Meaning.{type_tree};
ghost use Rattle.csub_rules.specs.Faults.{fault_if, ◌or_earlier◌};
ghost use Rattle.csub_rules.specs.Here.{is_declared, is_reserved};
ghost use Rattle.csub_rules.specs.Locals.{declare_fault, past_declare, past_var, past_vars, value_fault, var_fault, vars_fault};
ghost use Rattle.csub_scopes.specs.Meanings.{scope_of};
ghost use Rattle.csub_tree.specs.Declarations.{declarator_tree, declare_tree, init_tree};
ghost use Rattle.csub_bodies.specs.Views.{here_of};

use crate::here::{Here, declare, is_declared};
use csub_declare::{base_type, check_base, check_init, check_slot};
use csub_objects::{CType, copy_type};
use csub_rules::{Fault, earlier, fault_if, is_reserved};
use csub_scopes::Scope;
use csub_tree::{Declarator, Declare, Init};
use std::alloc::{AllocError, Global};

/// The initialiser of an object of a function.
fn check_value(scope: &Scope, ctype: Option<&CType>, init: &Option<Init>) -> Option<Fault>
    ensures { result ≡ value_fault (scope_of scope.now) (option_map (λ t. type_tree t.now) ctype.entry) (option_map init_tree init.now) }
{
    check_init(scope, false, ctype, init.as_ref()?)
}

/// A copy of a type, which shares what it holds.
fn shared(ctype: &Option<CType>) -> Result<Option<CType>, AllocError>
    ensures { IfOk result (λ made. option_map type_tree made ≡ option_map type_tree ctype.now) }
{
    match ctype {
        None => Ok(None),
        Some(ctype) => Ok(Some(copy_type(ctype)?)),
    }
}

/// A declared object. The fault of its name: M2 or M3.
fn name_fault(here: &Here, d: &Declarator) -> Option<Fault>
    ensures { result ≡ fault_if (is_declared (here_of here.now) d.now.name.text) 2 d.now.name.span or_earlier fault_if (is_reserved d.now.name.text) 3 d.now.name.span }
{
    let twice = fault_if(is_declared(here, d.name.text.bytes()), 2, d.name.span);
    let reserved = fault_if(is_reserved(d.name.text.bytes()), 3, d.name.span);
    earlier(twice, reserved)
}

/// A declared object behind a type: the first rule that it breaks. It is declared then.
fn check_var(
    alloc: Global,
    here: &mut Here,
    base: &Option<CType>,
    d: &Declarator,
) -> Result<Option<Fault>, AllocError>
    ensures fault { IfOk result (λ fault. fault ≡ var_fault (here_of here.old) (option_map type_tree base.now) (declarator_tree d.now)) }
    ensures past { OnOk result (here_of here.new ≡ past_var (here_of here.old) (option_map type_tree base.now) (declarator_tree d.now)) }
{
    let named = name_fault(here, d);
    let slot = check_slot(alloc, &here.scope, base, d.name.span, d.dims.as_slice())?;
    let ctype = shared(&slot.ctype)?;
    declare(here, &d.name.text, ctype)?;
    let value = check_value(&here.scope, slot.ctype.as_ref(), &d.init);
    Ok(earlier(earlier(named, slot.fault), value))
}

/// Declared objects behind a type.
fn check_vars(
    alloc: Global,
    here: &mut Here,
    base: &Option<CType>,
    vars: &[Declarator],
) -> Result<Option<Fault>, AllocError>
    ensures fault { IfOk result (λ fault. fault ≡ vars_fault (here_of here.old) (option_map type_tree base.now) (map declarator_tree vars.now)) }
    ensures past { OnOk result (here_of here.new ≡ past_vars (here_of here.old) (option_map type_tree base.now) (map declarator_tree vars.now)) }
{
    let mut least = None;
    for d in vars {
        let fault = check_var(alloc, here, base, d)?;
        least = earlier(least, fault);
    }
    Ok(least)
}

/// The first rule that a declaration in a block breaks. Its objects are declared then. An `Err` is want of memory.
pub fn check_declaration(
    alloc: Global,
    here: &mut Here,
    d: &Declare,
) -> Result<Option<Fault>, AllocError>
    ensures fault { IfOk result (λ fault. fault ≡ declare_fault (here_of here.old) (declare_tree d.now)) }
    ensures past { OnOk result (here_of here.new ≡ past_declare (here_of here.old) (declare_tree d.now)) }
{
    let base = base_type(&here.scope, &d.base)?;
    let broken = check_base(&here.scope, &d.base);
    let vars = check_vars(alloc, here, &base, d.vars.as_slice())?;
    Ok(earlier(broken, vars))
}
