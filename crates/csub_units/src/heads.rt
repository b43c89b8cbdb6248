//! Declared functions (C11 6.7.6.3).
ghost use Rattle.std.specs.Prelude.{◌≡◌, IfOk, OnOk, if◌then◌else◌, map};
ghost use Rattle.csub_objects.specs.Meaning.{type_tree};
ghost use Rattle.csub_objects.specs.Types.{type_eq};
ghost use Rattle.csub_rules.specs.ExprSorts.{number_of};
ghost use Rattle.csub_scopes.specs.Meanings.{meaning_of, scope_of};
ghost use Rattle.csub_scopes.specs.Scopes.{a_function, find};
ghost use Rattle.csub_tree.specs.Declarations.{head_tree, param_tree};
ghost use Rattle.csub_bodies.specs.Views.{closed, here_of};
ghost use Rattle.csub_rules.specs.Files.{is_known, naming};
ghost use Rattle.csub_rules.specs.Params.{param_type};
ghost use Rattle.csub_rules.specs.Heads.{agrees, at_params, contradicts, disagrees, head_fault, head_name_fault, is_other, is_taken, params_agree, past_head, results_eq};

use crate::file::{declare_name, is_known};
use crate::params::{check_params, param_type};
use csub_bodies::Here;
use csub_objects::{CType, same_type};
use csub_rules::{Fault, earlier, fault_if, is_reserved};
use csub_scopes::{Counts, Meaning, Scope, Signature};
use csub_text::Text;
use csub_tree::{Head, Param, TypeName};
use csub_types::IntKind;
use std::alloc::{AllocError, Global};

/// The kind of a function's result; none for `void`.
pub fn number_of(name: &TypeName) -> Option<IntKind>
    ensures { result ≡ number_of name.now }
{
    match name {
        TypeName::Void => None,
        TypeName::Char => Some(IntKind::Char),
        TypeName::Int => Some(IntKind::Int),
        TypeName::Unsigned => Some(IntKind::Unsigned),
        TypeName::Struct(_) => None,
    }
}

/// Enters the scope of parameters: a block round which no block stands, and in which nothing is declared (C11 6.2.1p4).
pub fn enter_params(alloc: Global, here: &mut Here)
    ensures { here_of here.new ≡ at_params (here_of here.old).scope }
{
    here.depth = 1;
    here.before = Counts::new(alloc);
}

/// Leaves it, which was entered with so many names in scope.
pub fn leave_params(here: &mut Here, mark: usize)
    ensures { (here_of here.new).scope ≡ (closed (here_of here.old) 0 mark).scope }
{
    here.scope.names.close(mark);
}

/// Whether a meaning is none of a function.
fn is_other(meaning: &Meaning) -> bool
    ensures { result ≡ is_other (meaning_of meaning.now) }
{
    match meaning {
        Meaning::Global(_) => true,
        Meaning::Local(_, _) => true,
        Meaning::Constant(_) => true,
        Meaning::Function(_) => false,
        Meaning::Untyped => true,
    }
}

/// Whether a name is declared as something else than a function.
fn is_taken(scope: &Scope, name: &[u8]) -> bool
    ensures { result ≡ is_taken (find name.now scope.now.names) }
{
    match scope.names.find(name) {
        None => false,
        Some(declared) => is_other(&declared.meaning),
    }
}

/// Whether two types are the same.
fn is_same(a: &CType, b: &CType) -> bool
    ensures { result ≡ type_eq (type_tree a.now) (type_tree b.now) }
{
    same_type(a, b)
}

/// Whether a parameter's type is this one; where its declaration breaks a rule, it agrees with every type. An `Err` is want
/// of memory.
fn agrees(alloc: Global, scope: &Scope, before: &CType, p: &Param) -> Result<bool, AllocError>
    ensures { IfOk result (λ agree. agree ≡ agrees (type_tree before.now) (param_type (scope_of scope.now) (param_tree p.now))) }
{
    match param_type(alloc, scope, p)? {
        None => Ok(true),
        Some(own) => Ok(is_same(before, &own)),
    }
}

/// Whether parameters agree with the types of those of an earlier declaration. An `Err` is want of memory.
fn params_agree(
    alloc: Global,
    scope: &Scope,
    before: &[CType],
    params: &[Param],
) -> Result<bool, AllocError>
    ensures { IfOk result (λ agree. agree ≡ params_agree (scope_of scope.now) (map type_tree before.now) (map param_tree params.now)) }
{
    if before.len() != params.len() {
        return Ok(false);
    }
    let mut agree = true;
    for i in (0..params.len()).rev() {
        agree = agrees(alloc, scope, &before[i], &params[i])? && agree;
    }
    Ok(agree)
}

fn same_results(a: Option<IntKind>, b: Option<IntKind>) -> bool
    ensures { result ≡ results_eq a b }
{
    match a {
        None => b.is_none(),
        Some(a) => match b {
            None => false,
            Some(b) => a == b,
        },
    }
}

/// Whether a meaning is that of a function with which a head disagrees. An `Err` is want of memory.
fn disagrees(alloc: Global, meaning: &Meaning, scope: &Scope, h: &Head) -> Result<bool, AllocError>
    ensures { IfOk result (λ other. other ≡ disagrees (meaning_of meaning.now) (scope_of scope.now) (head_tree h.now)) }
{
    match meaning {
        Meaning::Global(_) => Ok(false),
        Meaning::Local(_, _) => Ok(false),
        Meaning::Constant(_) => Ok(false),
        Meaning::Function(f) => {
            let agree = params_agree(alloc, scope, f.params.as_slice(), h.params.as_slice())?;
            Ok(!(agree && same_results(f.result, number_of(&h.result))))
        }
        Meaning::Untyped => Ok(false),
    }
}

/// Whether a head disagrees with an earlier declaration of its function. An `Err` is want of memory.
fn contradicts(alloc: Global, scope: &Scope, h: &Head) -> Result<bool, AllocError>
    ensures { IfOk result (λ other. other ≡ contradicts (scope_of scope.now) (head_tree h.now)) }
{
    match scope.names.find(h.name.text.bytes()) {
        None => Ok(false),
        Some(declared) => disagrees(alloc, &declared.meaning, scope, h),
    }
}

/// M2, M3 and M19 of a head. An `Err` is want of memory.
fn check_head_name(alloc: Global, scope: &Scope, h: &Head) -> Result<Option<Fault>, AllocError>
    ensures { IfOk result (λ fault. fault ≡ head_name_fault (scope_of scope.now) (head_tree h.now)) }
{
    let name = h.name.text.bytes();
    let taken = fault_if(is_taken(scope, name), 2, h.name.span);
    let reserved = fault_if(is_reserved(name), 3, h.name.span);
    let other = contradicts(alloc, scope, h)?;
    Ok(earlier(earlier(taken, reserved), fault_if(other, 19, h.name.span)))
}

/// Declares a function, where nothing of its name is declared.
fn declare_head(
    scope: &mut Scope,
    name: &Text,
    params: Vec<CType>,
    kind: Option<IntKind>,
) -> Result<(), AllocError>
    ensures { OnOk result (scope_of scope.new ≡ (if is_known (scope_of scope.old) name.now then scope_of scope.old else naming (scope_of scope.old) name.now (a_function (map type_tree params.items) kind))) }
{
    if is_known(scope, name.bytes()) {
        return Ok(());
    }
    let signature = Signature {
        params,
        result: kind,
    };
    declare_name(scope, name, Meaning::Function(signature))
}

/// The first rule that the head of a function breaks, which stands at file scope. Its name is declared then, and its
/// parameters are known no more. An `Err` is want of memory.
pub fn check_head(alloc: Global, here: &mut Here, h: &Head) -> Result<Option<Fault>, AllocError>
    ensures fault { IfOk result (λ fault. fault ≡ head_fault (here_of here.old).scope (head_tree h.now)) }
    ensures past { OnOk result ((here_of here.new).scope ≡ past_head (here_of here.old).scope (head_tree h.now)) }
{
    let mark = here.scope.names.count();
    enter_params(alloc, here);
    let params = check_params(alloc, here, h.params.as_slice())?;
    leave_params(here, mark);
    let named = check_head_name(alloc, &here.scope, h)?;
    declare_head(
        &mut here.scope,
        &h.name.text,
        params.types,
        number_of(&h.result),
    )?;
    Ok(earlier(named, params.fault))
}
