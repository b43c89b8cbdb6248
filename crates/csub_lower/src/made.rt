//! What is made of an expression, and what is asked of it.
ghost use Rattle.std.specs.Prelude.{◌≡◌, Some, IfOk, IsTrue};
ghost use Rattle.csub_objects.specs.Meaning.{type_tree};
ghost use Rattle.csub_semantics.specs.Trees.{arg_tree, array_argument, expr_tree as value_tree, place_tree, reading, value_argument};
ghost use Rattle.csub_rules.specs.Sorts.{a_place, element_of, has_elements, has_member, is_array, is_number, is_number_place, kind_of, member_of, the_kind};
ghost use Rattle.csub_rules.specs.Callees.{takes};
ghost use Rattle.csub_lower.specs.Made.{made_argument, made_place, made_sort, made_value};

use crate::boxes::boxed_value;
use csub_objects::{CType, element_type, member_type};
use csub_semantics::{Place, RArg, RExpr};
use csub_types::IntKind;
use std::alloc::{AllocError, Global};

/// What is made of an expression that breaks no rule. A type stands where it was declared, so nothing is copied.
#[derive(Drop)]
pub enum Made<'t> {
    /// A place of a type.
    Place(Box<Place>, &'t CType),
    /// A value of a kind.
    Value(Box<RExpr>, IntKind),
    /// What a call without a value gives.
    Void,
}

/// A number.
#[derive(Drop)]
pub(crate) struct Number {
    /// Its value.
    pub(crate) value: Box<RExpr>,
    /// Its kind.
    pub(crate) kind: IntKind,
}

/// A number of what has to be one. An `Err` is want of memory.
pub(crate) fn to_number(alloc: Global, made: Made) -> Result<Number, AllocError>
    requires { IsTrue (is_number (made_sort made)) }
    ensures kind { IfOk result (λ n. kind_of (made_sort made.entry) ≡ Some n.kind) }
    ensures value { IfOk result (λ n. made_value made.entry ≡ value_tree n.value.value) }
{
    match made {
        Made::Value(value, kind) => Ok(Number { value, kind }),
        Made::Place(place, ctype) => match ctype {
            CType::Num(kind) => read_number(alloc, place, *kind),
            CType::Array(_, _) => unreachable!(),
            CType::Struct(_, _) => unreachable!(),
            CType::Loose(_) => unreachable!(),
        },
        Made::Void => unreachable!(),
    }
}

/// The number in a place. An `Err` is want of memory.
fn read_number(alloc: Global, place: Box<Place>, kind: IntKind) -> Result<Number, AllocError>
    ensures kind { IfOk result (λ n. n.kind ≡ kind) }
    ensures value { IfOk result (λ n. value_tree n.value.value ≡ reading (place_tree place.value)) }
{
    let value = boxed_value(alloc, RExpr::Read(Box::into_inner(place)))?;
    Ok(Number { value, kind })
}

/// The place of a number, with its kind.
pub(crate) fn to_number_place(made: Made) -> (Box<Place>, IntKind)
    requires { IsTrue (is_number_place (made_sort made)) }
    ensures kind { the_kind (made_sort made.entry) ≡ result.1 }
    ensures place { made_place made.entry ≡ place_tree result.0.value }
{
    match made {
        Made::Value(_, _) => unreachable!(),
        Made::Place(place, ctype) => match ctype {
            CType::Num(kind) => (place, *kind),
            CType::Array(_, _) => unreachable!(),
            CType::Struct(_, _) => unreachable!(),
            CType::Loose(_) => unreachable!(),
        },
        Made::Void => unreachable!(),
    }
}

/// The place of an array, or of an array parameter, with the type of its elements (C11 6.5.2.1p2).
pub(crate) fn to_array<'t>(made: Made<'t>) -> (Box<Place>, &'t CType)
    requires { IsTrue (is_array (made_sort made)) }
    ensures element { element_of (made_sort made.entry) ≡ a_place (type_tree result.1.now) }
    ensures place { made_place made.entry ≡ place_tree result.0.value }
{
    match made {
        Made::Value(_, _) => unreachable!(),
        Made::Place(place, ctype) => match element_type(ctype) {
            None => unreachable!(),
            Some(element) => (place, element),
        },
        Made::Void => unreachable!(),
    }
}

/// The place of a struct, with the type of its member of a name (C11 6.5.2.3p3).
pub(crate) fn to_struct<'t>(made: Made<'t>, name: &[u8]) -> (Box<Place>, &'t CType)
    requires { IsTrue (has_member name.now (made_sort made)) }
    ensures member { member_of name.now (made_sort made.entry) ≡ a_place (type_tree result.1.now) }
    ensures place { made_place made.entry ≡ place_tree result.0.value }
{
    match made {
        Made::Value(_, _) => unreachable!(),
        Made::Place(place, ctype) => match member_type(ctype, name) {
            None => unreachable!(),
            Some(member) => (place, member),
        },
        Made::Void => unreachable!(),
    }
}

/// A number as an argument. An `Err` is want of memory.
fn number_argument(alloc: Global, made: Made) -> Result<RArg, AllocError>
    requires { IsTrue (is_number (made_sort made)) }
    ensures { IfOk result (λ a. arg_tree a ≡ value_argument (made_value made.entry)) }
{
    let number = to_number(alloc, made)?;
    Ok(RArg::Value(Box::into_inner(number.value)))
}

/// An array as an argument, for a parameter that refers to elements of this type.
fn array_argument(made: Made, element: &CType) -> RArg
    requires { IsTrue (has_elements (type_tree element.now) (made_sort made)) }
    ensures { arg_tree result ≡ array_argument (made_place made.entry) }
{
    match made {
        Made::Value(_, _) => unreachable!(),
        Made::Place(place, _) => RArg::Array(Box::into_inner(place)),
        Made::Void => unreachable!(),
    }
}

/// The argument for a parameter of a type (C11 6.5.2.2p4 and 6.7.6.3p7). An `Err` is want of memory.
pub(crate) fn to_argument(alloc: Global, made: Made, param: &CType) -> Result<RArg, AllocError>
    requires { IsTrue (takes (type_tree param.now) (made_sort made)) }
    ensures { IfOk result (λ a. made_argument (type_tree param.now) made.entry ≡ arg_tree a) }
{
    match param {
        CType::Num(_) => number_argument(alloc, made),
        CType::Array(_, _) => unreachable!(),
        CType::Struct(_, _) => unreachable!(),
        CType::Loose(element) => Ok(array_argument(made, element.ctype())),
    }
}
