//! The members of a struct have different names: the types of the code keep it.
ghost use Rattle.std.specs.Prelude.{All};
ghost use Rattle.csub_objects.specs.declared.types.Member.{Member};
ghost use Rattle.csub_objects.specs.Meaning.{type_tree};
ghost use Rattle.csub_semantics.specs.declared.types.GlobalVar.{GlobalVar};
ghost use Rattle.csub_semantics.specs.declared.function.LocalVar.{LocalVar};
ghost use Rattle.csub_semantics.specs.declared.function.Function.{Function};
ghost use Rattle.csub_semantics.specs.Syntax.{function_tree};
ghost use Rattle.csub_validity.specs.Valid.{HasOwnNames, declared_types};
ghost use Rattle.csub_decisions.specs.Checks.{tree_of, OfObjects};

use crate::site::Definitions;
use csub_semantics::{CType, Function, GlobalVar, LocalVar, Member};

/// In the types of all objects of a program the members of each struct have different names (C11 6.7p3), since
/// `Members` of `csub_objects` are made only so. It says so after a pass over these types, compares nothing and takes no memory.
pub fn names_are_own(program: Definitions<'_>)
    ensures { All HasOwnNames (declared_types (tree_of program.entry)) }
{
    globals_are_own(program.globals);
    functions_are_own(program.functions);
}

/// The same of the objects of file scope.
fn globals_are_own(globals: &[GlobalVar])
    ensures { All (λ (g : GlobalVar). HasOwnNames (type_tree g.ctype)) globals.now }
{
    for global in globals {
        type_is_own(&global.ctype);
    }
}

/// The same of the objects of all functions.
fn functions_are_own(functions: &[Function])
    ensures { All (λ (f : Function). OfObjects HasOwnNames (function_tree f)) functions.now }
{
    for function in functions {
        objects_are_own(function);
    }
}

/// The same of the objects of a function.
fn objects_are_own(function: &Function)
    ensures { OfObjects HasOwnNames (function_tree function.now) }
{
    members_are_own(&function.params);
    locals_are_own(&function.locals);
}

/// The same of locals.
fn locals_are_own(locals: &[LocalVar])
    ensures { All (λ (l : LocalVar). HasOwnNames (type_tree l.ctype)) locals.now }
{
    for local in locals {
        type_is_own(&local.ctype);
    }
}

/// The same of members, or of parameters.
#[cycle(own)]
fn members_are_own(members: &[Member])
    ensures { All (λ (m : Member). HasOwnNames (type_tree m.ctype)) members.now }
{
    for member in members {
        type_is_own(&member.ctype);
    }
}

/// The same of one type.
#[cycle(own)]
fn type_is_own(ctype: &CType)
    ensures { HasOwnNames (type_tree ctype.now) }
{
    match ctype {
        CType::Num(_) => (),
        CType::Array(element, _) | CType::Loose(element) => type_is_own(element.ctype()),
        CType::Struct(_, members) => members_are_own(members.items()),
    }
}
