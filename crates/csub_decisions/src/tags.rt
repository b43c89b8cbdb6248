//! Whether structs with one tag have the same members throughout a program.
ghost use Rattle.std.specs.Prelude.{◌↔◌, All, IsTrue};
ghost use Rattle.std.specs.List.{flat_map};
ghost use Rattle.csub_objects.specs.declared.types.Member.{Member};
ghost use Rattle.csub_objects.specs.Meaning.{type_tree};
ghost use Rattle.csub_semantics.specs.declared.types.GlobalVar.{GlobalVar};
ghost use Rattle.csub_semantics.specs.declared.function.LocalVar.{LocalVar};
ghost use Rattle.csub_semantics.specs.declared.function.Function.{Function};
ghost use Rattle.csub_semantics.specs.Syntax.{function_tree};
ghost use Rattle.csub_validity.specs.Valid.{AgreeOn, AgreeOnTags, declared_types, structs_in};
ghost use Rattle.csub_decisions.specs.Checks.{tree_of, struct_tree, declared_structs, AgreesIn, AllAgree, OfObjects};

use crate::site::Definitions;
use csub_objects::same_members;
use csub_semantics::{CType, Function, GlobalVar, LocalVar, Member};
use csub_text::Text;

/// Whether structs with one tag have the same members throughout the program (C11 6.7.2.3p1): each struct in the type of
/// an object is compared with each struct in the types of all objects.
///
/// A type without structs takes a step for each of its dimensions. For each struct in the types of objects, this passes
/// over the types of all objects once, and compares its members part by part with those of each struct of its tag: it is
/// quadratic in the structs of these types. It takes no memory.
pub fn tags_agree(program: Definitions<'_>) -> bool
    ensures { IsTrue result ↔ AgreeOnTags (flat_map structs_in (declared_types (tree_of program.entry))) }
{
    globals_agree(program) && functions_agree(program)
}

/// Whether each struct in the types of the objects of file scope agrees with all structs of the program.
fn globals_agree(program: Definitions<'_>) -> bool
    ensures { IsTrue result ↔ All (λ (g : GlobalVar). AllAgree (declared_structs (tree_of program.entry)) (type_tree g.ctype)) program.entry.globals.now }
{
    program
        .globals
        .iter()
        .all(|global| type_agrees(&global.ctype, program))
}

/// The same of the objects of all functions.
fn functions_agree(program: Definitions<'_>) -> bool
    ensures { IsTrue result ↔ All (λ (f : Function). OfObjects (AllAgree (declared_structs (tree_of program.entry))) (function_tree f)) program.entry.functions.now }
{
    program
        .functions
        .iter()
        .all(|function| objects_agree(function, program))
}

/// The same of the objects of a function.
fn objects_agree(function: &Function, program: Definitions<'_>) -> bool
    ensures { IsTrue result ↔ OfObjects (AllAgree (declared_structs (tree_of program.entry))) (function_tree function.now) }
{
    members_agree(&function.params, program) && locals_agree(&function.locals, program)
}

/// The same of locals.
fn locals_agree(locals: &[LocalVar], program: Definitions<'_>) -> bool
    ensures { IsTrue result ↔ All (λ (l : LocalVar). AllAgree (declared_structs (tree_of program.entry)) (type_tree l.ctype)) locals.now }
{
    locals
        .iter()
        .all(|local| type_agrees(&local.ctype, program))
}

/// The same of members, or of parameters.
#[cycle(tags)]
fn members_agree(members: &[Member], program: Definitions<'_>) -> bool
    ensures { IsTrue result ↔ All (λ (m : Member). AllAgree (declared_structs (tree_of program.entry)) (type_tree m.ctype)) members.now }
{
    for member in members {
        if !type_agrees(&member.ctype, program) {
            return false;
        }
    }
    true
}

/// The same of one type.
#[cycle(tags)]
fn type_agrees(ctype: &CType, program: Definitions<'_>) -> bool
    ensures { IsTrue result ↔ AllAgree (declared_structs (tree_of program.entry)) (type_tree ctype.now) }
{
    match ctype {
        CType::Num(_) => true,
        CType::Array(element, _) | CType::Loose(element) => type_agrees(element.ctype(), program),
        CType::Struct(tag, members) => {
            let members = members.items();
            agrees_throughout(program, tag, members) && members_agree(members, program)
        }
    }
}

/// Whether a struct agrees with each struct in the types of all objects of the program.
fn agrees_throughout(program: Definitions<'_>, tag: &Text, members: &[Member]) -> bool
    ensures { IsTrue result ↔ All (AgreeOn (struct_tree tag.now members.now)) (declared_structs (tree_of program.entry)) }
{
    agrees_in_globals(program.globals, tag, members)
        && agrees_in_functions(program.functions, tag, members)
}

/// Whether a struct agrees with each struct in the types of objects of file scope.
fn agrees_in_globals(globals: &[GlobalVar], tag: &Text, members: &[Member]) -> bool
    ensures { IsTrue result ↔ All (λ (g : GlobalVar). AgreesIn (struct_tree tag.now members.now) (type_tree g.ctype)) globals.now }
{
    globals
        .iter()
        .all(|global| agrees_in(&global.ctype, tag, members))
}

/// The same of the objects of functions.
fn agrees_in_functions(functions: &[Function], tag: &Text, members: &[Member]) -> bool
    ensures { IsTrue result ↔ All (λ (f : Function). OfObjects (AgreesIn (struct_tree tag.now members.now)) (function_tree f)) functions.now }
{
    functions
        .iter()
        .all(|function| agrees_in_objects(function, tag, members))
}

/// The same of the objects of a function.
fn agrees_in_objects(function: &Function, tag: &Text, members: &[Member]) -> bool
    ensures { IsTrue result ↔ OfObjects (AgreesIn (struct_tree tag.now members.now)) (function_tree function.now) }
{
    agrees_among(&function.params, tag, members) && agrees_in_locals(&function.locals, tag, members)
}

/// The same of locals.
fn agrees_in_locals(locals: &[LocalVar], tag: &Text, members: &[Member]) -> bool
    ensures { IsTrue result ↔ All (λ (l : LocalVar). AgreesIn (struct_tree tag.now members.now) (type_tree l.ctype)) locals.now }
{
    locals
        .iter()
        .all(|local| agrees_in(&local.ctype, tag, members))
}

/// The same of members, or of parameters.
#[cycle(agreeing)]
fn agrees_among(items: &[Member], tag: &Text, members: &[Member]) -> bool
    ensures { IsTrue result ↔ All (λ (m : Member). AgreesIn (struct_tree tag.now members.now) (type_tree m.ctype)) items.now }
{
    for item in items {
        if !agrees_in(&item.ctype, tag, members) {
            return false;
        }
    }
    true
}

/// The same of one type.
#[cycle(agreeing)]
fn agrees_in(ctype: &CType, tag: &Text, members: &[Member]) -> bool
    ensures { IsTrue result ↔ AgreesIn (struct_tree tag.now members.now) (type_tree ctype.now) }
{
    match ctype {
        CType::Num(_) => true,
        CType::Array(element, _) | CType::Loose(element) => {
            agrees_in(element.ctype(), tag, members)
        }
        CType::Struct(name, others) => {
            let others = others.items();
            agree(tag, members, name, others) && agrees_among(others, tag, members)
        }
    }
}

/// Whether two structs agree: they have the same members if they have one tag.
fn agree(tag: &Text, members: &[Member], name: &Text, others: &[Member]) -> bool
    ensures { IsTrue result ↔ AgreeOn (struct_tree tag.now members.now) (struct_tree name.now others.now) }
{
    if *tag == *name {
        same_members(members, others)
    } else {
        true
    }
}
