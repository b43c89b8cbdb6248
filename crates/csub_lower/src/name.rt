//! What names stand for.
ghost use Rattle.std.specs.Prelude.{◌≡◌, IfOk, IsTrue};
ghost use Rattle.csub_objects.specs.Meaning.{type_tree};
ghost use Rattle.csub_semantics.specs.Trees.{global_owner, local_owner, object, reading, variable};
ghost use Rattle.csub_scopes.specs.Meanings.{scope_of};
ghost use Rattle.csub_scopes.specs.Scopes.{find};
ghost use Rattle.csub_rules.specs.Sorts.{a_place, is_sorted};
ghost use Rattle.csub_rules.specs.ExprSorts.{sort_of_declared, sort_of_name};
ghost use Rattle.csub_resolution.specs.Values.{place_of_declared, place_of_name, value_of_declared, value_of_name};
ghost use Rattle.csub_lower.specs.Made.{made_place, made_sort, made_value};

use crate::made::Made;
use crate::node::{constant_node, object_node};
use csub_objects::CType;
use csub_rules::is_reserved;
use csub_scopes::{Meaning, Scope};
use csub_semantics::Owner;
use csub_tree::Name;
use csub_types::IntKind;
use std::alloc::{AllocError, Global};

/// An object of a function.
fn local_node<'t>(
    alloc: Global,
    x: &Name,
    number: u32,
    ctype: &'t CType,
) -> Result<Made<'t>, AllocError>
    ensures sort { IfOk result (λ m. made_sort m ≡ a_place (type_tree ctype.now)) }
    ensures place { IfOk result (λ m. made_place m ≡ variable (object (local_owner x.now.text number) (type_tree ctype.now))) }
    ensures value { IfOk result (λ m. made_value m ≡ reading (variable (object (local_owner x.now.text number) (type_tree ctype.now)))) }
{
    object_node(alloc, Owner::Local(x.text.copy()?, number), ctype)
}

/// An object of file scope.
fn global_node<'t>(alloc: Global, x: &Name, ctype: &'t CType) -> Result<Made<'t>, AllocError>
    ensures sort { IfOk result (λ m. made_sort m ≡ a_place (type_tree ctype.now)) }
    ensures place { IfOk result (λ m. made_place m ≡ variable (object (global_owner x.now.text) (type_tree ctype.now))) }
    ensures value { IfOk result (λ m. made_value m ≡ reading (variable (object (global_owner x.now.text) (type_tree ctype.now)))) }
{
    object_node(alloc, Owner::Global(x.text.copy()?), ctype)
}

/// What a name stands for that is none of the library's (C11 6.2.1p4). An `Err` is want of memory.
fn declared_name<'t>(alloc: Global, scope: &'t Scope, x: &Name) -> Result<Made<'t>, AllocError>
    requires { IsTrue (is_sorted (sort_of_declared (find x.now.text scope.now.names))) }
    ensures sort { IfOk result (λ m. sort_of_declared (find x.now.text scope.now.names) ≡ made_sort m) }
    ensures place { IfOk result (λ m. place_of_declared x.now.text (find x.now.text scope.now.names) ≡ made_place m) }
    ensures value { IfOk result (λ m. value_of_declared x.now.text (find x.now.text scope.now.names) ≡ made_value m) }
{
    match scope.names.find(x.text.bytes()) {
        None => unreachable!(),
        Some(declared) => match &declared.meaning {
            Meaning::Global(ctype) => global_node(alloc, x, ctype),
            Meaning::Local(number, ctype) => local_node(alloc, x, *number, ctype),
            Meaning::Constant(number) => constant_node(alloc, IntKind::Int, *number),
            Meaning::Function(_) => unreachable!(),
            Meaning::Untyped => unreachable!(),
        },
    }
}

/// What a name stands for: of the library's names, `EOF` alone stands by itself (C11 7.21.1p3). An `Err` is want of
/// memory.
pub(crate) fn name<'t>(alloc: Global, scope: &'t Scope, x: &Name) -> Result<Made<'t>, AllocError>
    requires { IsTrue (is_sorted (sort_of_name (scope_of scope.now) x.now.text)) }
    ensures sort { IfOk result (λ m. sort_of_name (scope_of scope.now) x.now.text ≡ made_sort m) }
    ensures place { IfOk result (λ m. place_of_name (scope_of scope.now) x.now.text ≡ made_place m) }
    ensures value { IfOk result (λ m. value_of_name (scope_of scope.now) x.now.text ≡ made_value m) }
{
    if is_reserved(x.text.bytes()) {
        constant_node(alloc, IntKind::Int, -1)
    } else {
        declared_name(alloc, scope, x)
    }
}
