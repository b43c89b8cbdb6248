//! Parameters (C11 6.7.6.3).
ghost use Rattle.std.specs.Prelude.{◌≡◌, ◌++◌, ◌∷◌, [], IfOk, OnOk, map, option_map};
ghost use Rattle.csub_objects.specs.Meaning.{type_tree};
ghost use Rattle.csub_objects.specs.Types.{loose_type};
ghost use Rattle.csub_rules.specs.Declarators.{number_base};
ghost use Rattle.csub_rules.specs.Faults.{◌or_earlier◌};
ghost use Rattle.csub_rules.specs.Params.{length_fault, param_base_fault, param_fault, param_type};
ghost use Rattle.csub_scopes.specs.Meanings.{scope_of};
ghost use Rattle.csub_tree.specs.Declarations.{param_tree};
ghost use Rattle.csub_tree.specs.Expressions.{expr_tree};
ghost use Rattle.csub_bodies.specs.Views.{here_of};
ghost use Rattle.csub_rules.specs.Heads.{param_name_fault, param_types, params_fault, past_name, past_param, past_params, sure_type};

use csub_bodies::{Here, declare, is_declared};
use csub_check::{Use, check_use};
use csub_declare::{base_type, check_base};
use csub_objects::{CType, copy_type, loose_of};
use csub_rules::{Fault, earlier, fault_if, is_reserved};
use csub_scopes::Scope;
use csub_tree::{Expr, Name, Param, TypeName};
use csub_types::IntKind;
use std::alloc::{AllocError, Global};

/// The type of a number; `int` for `void`, with which no parameter begins.
fn number_base(base: &TypeName) -> Option<CType>
    ensures { option_map type_tree result ≡ number_base base.now }
{
    match base {
        TypeName::Void => Some(CType::Num(IntKind::Int)),
        TypeName::Char => Some(CType::Num(IntKind::Char)),
        TypeName::Int => Some(CType::Num(IntKind::Int)),
        TypeName::Unsigned => Some(CType::Num(IntKind::Unsigned)),
        TypeName::Struct(_) => None,
    }
}

/// The type of an array parameter, where that of its elements is known.
fn loose_if(alloc: Global, element: Option<CType>) -> Result<Option<CType>, AllocError>
    ensures { IfOk result (λ made. option_map type_tree made ≡ option_map loose_type (option_map type_tree element)) }
{
    match element {
        None => Ok(None),
        Some(element) => Ok(Some(loose_of(alloc, element)?)),
    }
}

/// The type of a parameter; none where its declaration breaks a rule. An `Err` is want of memory.
pub fn param_type(alloc: Global, scope: &Scope, p: &Param) -> Result<Option<CType>, AllocError>
    ensures { IfOk result (λ made. option_map type_tree made ≡ param_type (scope_of scope.now) (param_tree p.now)) }
{
    if p.array {
        loose_if(alloc, base_type(scope, &p.base)?)
    } else {
        Ok(number_base(&p.base))
    }
}

/// M4 of a parameter.
fn check_param_base(scope: &Scope, array: bool, base: &TypeName) -> Option<Fault>
    ensures { result ≡ param_base_fault (scope_of scope.now) array base.now }
{
    match base {
        TypeName::Void => None,
        TypeName::Char => None,
        TypeName::Int => None,
        TypeName::Unsigned => None,
        TypeName::Struct(tag) => {
            let undefined = check_base(scope, base).is_some();
            fault_if(!array || undefined, 4, tag.span)
        }
    }
}

/// The length of an array parameter, which is a constant where it is given.
fn check_length(scope: &Scope, length: &Option<Expr>) -> Option<Fault>
    ensures { result ≡ length_fault (scope_of scope.now) (option_map expr_tree length.now) }
{
    check_use(scope, Use::Constant, length.as_ref()?)
}

/// The first rule that a parameter's type breaks. It takes no memory.
pub fn check_param(scope: &Scope, p: &Param) -> Option<Fault>
    ensures { result ≡ param_fault (scope_of scope.now) (param_tree p.now) }
{
    earlier(
        check_param_base(scope, p.array, &p.base),
        check_length(scope, &p.length),
    )
}

/// M2 and M3 of a parameter's name.
fn check_param_name(here: &Here, name: &Option<Name>) -> Option<Fault>
    ensures { result ≡ param_name_fault (here_of here.now) name.now }
{
    let x = name.as_ref()?;
    let twice = fault_if(is_declared(here, x.text.bytes()), 2, x.span);
    let reserved = fault_if(is_reserved(x.text.bytes()), 3, x.span);
    earlier(twice, reserved)
}

/// Declares a parameter, where it has a name. An `Err` is want of memory.
pub fn declare_param(
    here: &mut Here,
    name: &Option<Name>,
    ctype: Option<CType>,
) -> Result<(), AllocError>
    ensures { OnOk result (here_of here.new ≡ past_name (here_of here.old) name.now (option_map type_tree ctype)) }
{
    match name {
        None => Ok(()),
        Some(x) => declare(here, &x.text, ctype),
    }
}

/// The type of a parameter as calls see it, `int` where it breaks a rule. An `Err` is want of memory.
pub fn sure_type(ctype: &Option<CType>) -> Result<CType, AllocError>
    ensures { IfOk result (λ made. type_tree made ≡ sure_type (option_map type_tree ctype.now)) }
{
    match ctype {
        None => Ok(CType::Num(IntKind::Int)),
        Some(ctype) => copy_type(ctype),
    }
}

/// A parameter: the first rule that it breaks. It is declared then, and its type put behind those of the others.
fn check_one_param(
    alloc: Global,
    here: &mut Here,
    types: &mut Vec<CType>,
    p: &Param,
) -> Result<Option<Fault>, AllocError>
    ensures fault { IfOk result (λ fault. fault ≡ param_name_fault (here_of here.old) p.now.name or_earlier param_fault (here_of here.old).scope (param_tree p.now)) }
    ensures types { OnOk result (map type_tree types.new.items ≡ map type_tree types.old.items ++ sure_type (param_type (here_of here.old).scope (param_tree p.now)) ∷ []) }
    ensures past { OnOk result (here_of here.new ≡ past_param (here_of here.old) (param_tree p.now)) }
{
    let named = check_param_name(here, &p.name);
    let broken = check_param(&here.scope, p);
    let ctype = param_type(alloc, &here.scope, p)?;
    types.push(sure_type(&ctype)?)?;
    declare_param(here, &p.name, ctype)?;
    Ok(earlier(named, broken))
}

/// What is found of parameters.
#[derive(Drop)]
pub struct Params {
    /// Their types as calls see them.
    pub types: Vec<CType>,
    /// The first rule that one of them breaks.
    pub fault: Option<Fault>,
}

/// Parameters, each of which sees those before it. They are declared then. An `Err` is want of memory.
pub fn check_params(alloc: Global, here: &mut Here, params: &[Param]) -> Result<Params, AllocError>
    ensures fault { IfOk result (λ found. found.fault ≡ params_fault (here_of here.old) (map param_tree params.now)) }
    ensures types { IfOk result (λ found. map type_tree found.types.items ≡ param_types (here_of here.old) (map param_tree params.now)) }
    ensures past { OnOk result (here_of here.new ≡ past_params (here_of here.old) (map param_tree params.now)) }
{
    let mut types = Vec::new(alloc);
    let mut least = None;
    for p in params {
        let fault = check_one_param(alloc, here, &mut types, p)?;
        least = earlier(least, fault);
    }
    Ok(Params {
        types,
        fault: least,
    })
}
