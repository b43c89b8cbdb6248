//! The objects that a function may name: those of file scope, its parameters, and its locals.
ghost use Rattle.std.specs.Prelude.{◌≡◌, ◌≢◌, ◌↔◌, ◌≤◌, [], AllPairs, IsTrue, Some, length, map};
ghost use Rattle.std.specs.Option.{option_map};
ghost use Rattle.std.specs.List.{AllWithin};
ghost use Rattle.csub_objects.specs.declared.types.Member.{Member};
ghost use Rattle.csub_semantics.specs.declared.function.LocalVar.{LocalVar};
ghost use Rattle.csub_objects.specs.Meaning.{type_tree, member_tree};
ghost use Rattle.csub_semantics.specs.Types.{global_tree};
ghost use Rattle.csub_semantics.specs.Trees.{owner_tree};
ghost use Rattle.csub_semantics.specs.Syntax.{local_tree, function_tree};
ghost use Rattle.csub_validity.specs.Valid.{objects_of, parameter_object, type_in, global_type, IsObject, AreOther};
ghost use Rattle.csub_decisions.specs.Checks.{scope_at, AreApart};

use crate::site::Site;
use csub_objects::same_type;
use csub_semantics::{CType, Function, GlobalVar, LocalVar, Member, Owner};

/// Whether an object stands in a function with the type that it is declared with. Its declaration is looked for from the
/// front, so this takes at most as many comparisons of names as a frame or the objects of file scope have cells, which
/// are at most 4,096 and 65,536.
pub fn is_object(site: Site<'_>, owner: &Owner, ctype: &CType) -> bool
    ensures { IsTrue result ↔ IsObject (scope_at site.entry).globals (scope_at site.entry).objects (owner_tree owner.now) (type_tree ctype.now) }
{
    match owner {
        Owner::Global(name) => match global_type(site.program.globals, name.bytes()) {
            None => false,
            Some(declared) => same_type(declared, ctype),
        },
        Owner::Local(name, number) => match object_type(site.function, name.bytes(), *number) {
            None => false,
            Some(declared) => same_type(declared, ctype),
        },
    }
}

/// Whether a local object, which is no parameter, stands with the type that it is declared with: such an object alone
/// may be initialised (C11 6.7.9). Its declaration is looked for from the front, as that of [`is_object`].
pub fn is_local(function: &Function, owner: &Owner, ctype: &CType) -> bool
    ensures { IsTrue result ↔ IsObject [] (function_tree function.now).locals (owner_tree owner.now) (type_tree ctype.now) }
{
    match owner {
        Owner::Global(_) => false,
        Owner::Local(name, number) => match local_type(&function.locals, name.bytes(), *number) {
            None => false,
            Some(declared) => same_type(declared, ctype),
        },
    }
}

/// The declared type of the object of file scope with a name.
fn global_type<'a>(globals: &'a [GlobalVar], name: &[u8]) -> Option<&'a CType>
    ensures { option_map (λ t. type_tree t.now) result ≡ global_type (map global_tree globals.now) name.now }
{
    for global in globals {
        if global.name.bytes() == name {
            return Some(&global.ctype);
        }
    }
    None
}

/// The declared type of the object with a name and a number, if the function has it.
fn object_type<'a>(function: &'a Function, name: &[u8], number: u32) -> Option<&'a CType>
    ensures { option_map (λ t. type_tree t.now) result ≡ type_in (objects_of (function_tree function.now)) name.now number }
{
    match param_type(&function.params, name, number) {
        Some(ctype) => Some(ctype),
        None => local_type(&function.locals, name, number),
    }
}

/// The declared type of the parameter with a name and a number, which is 1 for each.
fn param_type<'a>(params: &'a [Member], name: &[u8], number: u32) -> Option<&'a CType>
    ensures { option_map (λ t. type_tree t.now) result ≡ type_in (map (λ p. parameter_object (member_tree p)) params.now) name.now number }
{
    for param in params {
        if param.name.bytes() == name && number == 1 {
            return Some(&param.ctype);
        }
    }
    None
}

/// The declared type of the local with a name and a number.
fn local_type<'a>(locals: &'a [LocalVar], name: &[u8], number: u32) -> Option<&'a CType>
    ensures { option_map (λ t. type_tree t.now) result ≡ type_in (map local_tree locals.now) name.now number }
{
    for local in locals {
        if local.name.bytes() == name && local.number == number {
            return Some(&local.ctype);
        }
    }
    None
}

/// Whether no two objects of a function have one name and one number. This takes a comparison of names for each two
/// objects of a frame at most.
pub fn objects_differ(function: &Function) -> bool
    ensures { IsTrue result ↔ AllPairs AreOther (objects_of (function_tree function.now)) }
{
    params_differ(&function.params) && are_new(&function.params, &function.locals)
}

/// Whether the locals differ from each other and from the parameters.
fn are_new(params: &[Member], locals: &[LocalVar]) -> bool
    ensures { IsTrue result ↔ (AllPairs (λ (a b : LocalVar). AreOther (local_tree a) (local_tree b)) locals.now × AreApart params.now locals.now) }
{
    locals_differ(locals) && are_apart(params, locals)
}

/// Whether no two parameters have one name.
fn params_differ(params: &[Member]) -> bool
    ensures { IsTrue result ↔ AllPairs (λ (a b : Member). a.name ≢ b.name) params.now }
{
    for i in 0..params.len() {
        if !is_new_param(params, i, params[i].name.bytes()) {
            return false;
        }
    }
    true
}

/// Whether none of the first `count` parameters has a name.
fn is_new_param(params: &[Member], count: usize, name: &[u8]) -> bool
    requires { count ≤ length params.now }
    ensures { IsTrue result ↔ AllWithin (λ (p : Member). p.name ≢ name.now) params.now 0 count }
{
    for i in 0..count {
        if params[i].name.bytes() == name {
            return false;
        }
    }
    true
}

/// Whether no two locals have one name and one number.
fn locals_differ(locals: &[LocalVar]) -> bool
    ensures { IsTrue result ↔ AllPairs (λ (a b : LocalVar). AreOther (local_tree a) (local_tree b)) locals.now }
{
    for i in 0..locals.len() {
        let local = &locals[i];
        if !is_new_local(locals, i, local.name.bytes(), local.number) {
            return false;
        }
    }
    true
}

/// Whether none of the first `count` locals has a name with a number.
fn is_new_local(locals: &[LocalVar], count: usize, name: &[u8], number: u32) -> bool
    requires { count ≤ length locals.now }
    ensures { IsTrue result ↔ AllWithin (λ (l : LocalVar). l.name ≡ name.now → l.number ≢ number) locals.now 0 count }
{
    for i in 0..count {
        if locals[i].name.bytes() == name && locals[i].number == number {
            return false;
        }
    }
    true
}

/// Whether no local that counts as the first of its name has the name of a parameter.
fn are_apart(params: &[Member], locals: &[LocalVar]) -> bool
    ensures { IsTrue result ↔ AreApart params.now locals.now }
{
    for local in locals {
        if local.number == 1 && !is_new_param(params, params.len(), local.name.bytes()) {
            return false;
        }
    }
    true
}
