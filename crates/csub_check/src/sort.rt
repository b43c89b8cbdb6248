//! What an expression is, and what is asked of it.
ghost use Rattle.std.specs.Prelude.{◌≡◌, option_map};
ghost use Rattle.csub_objects.specs.Meaning.{type_tree};
ghost use Rattle.csub_objects.specs.Types.{type_eq};
ghost use Rattle.csub_rules.specs.Sorts.{is_sorted, lacks, kind_of_type, kind_of, place_kind_of, is_number, is_number_place, the_kind, value_if, sort_if, place_of, element_of, is_array, member_of, has_member, has_elements};
ghost use Rattle.csub_check.specs.Seen.{the_sort};

use csub_objects::{CType, element_type, member_type, same_type};
use csub_types::IntKind;

/// What an expression is. A type stands where it was declared, so nothing is copied.
#[derive(Clone, Copy)]
pub enum Sort<'t> {
    /// A place of a type (an lvalue, C11 6.3.2.1p1).
    Place(&'t CType),
    /// A value of a kind.
    Value(IntKind),
    /// A call without a value (C11 6.3.2.2).
    Void,
    /// None of these: what breaks a rule in itself, a string, and a call of `exit`.
    Unknown,
}

/// Whether an expression has a sort.
pub fn is_sorted(sort: Sort) -> bool
    ensures { result ≡ is_sorted (the_sort sort.entry) }
{
    match sort {
        Sort::Place(_) => true,
        Sort::Value(_) => true,
        Sort::Void => true,
        Sort::Unknown => false,
    }
}

/// Whether an expression has a sort and lacks what is asked of it.
pub fn lacks(sort: Sort, has: bool) -> bool
    ensures { result ≡ lacks (the_sort sort.entry) has }
{
    is_sorted(sort) && !has
}

/// The kind of a number's type.
fn kind_of_type(ctype: &CType) -> Option<IntKind>
    ensures { result ≡ kind_of_type (type_tree ctype.now) }
{
    match ctype {
        CType::Num(kind) => Some(*kind),
        CType::Array(_, _) => None,
        CType::Struct(_, _) => None,
        CType::Loose(_) => None,
    }
}

/// The kind of a number, which is a value or stands in a place.
pub fn kind_of(sort: Sort) -> Option<IntKind>
    ensures { result ≡ kind_of (the_sort sort.entry) }
{
    match sort {
        Sort::Place(ctype) => kind_of_type(ctype),
        Sort::Value(kind) => Some(kind),
        Sort::Void => None,
        Sort::Unknown => None,
    }
}

/// The kind of a place of a number.
pub fn place_kind_of(sort: Sort) -> Option<IntKind>
    ensures { result ≡ place_kind_of (the_sort sort.entry) }
{
    match sort {
        Sort::Place(ctype) => kind_of_type(ctype),
        Sort::Value(_) => None,
        Sort::Void => None,
        Sort::Unknown => None,
    }
}

/// Whether an expression is a number.
pub fn is_number(sort: Sort) -> bool
    ensures { result ≡ is_number (the_sort sort.entry) }
{
    kind_of(sort).is_some()
}

/// Whether an expression is a place of a number.
pub fn is_number_place(sort: Sort) -> bool
    ensures { result ≡ is_number_place (the_sort sort.entry) }
{
    place_kind_of(sort).is_some()
}

/// The kind of a number, `int` where there is none.
pub fn the_kind(sort: Sort) -> IntKind
    ensures { result ≡ the_kind (the_sort sort.entry) }
{
    match kind_of(sort) {
        None => IntKind::Int,
        Some(kind) => kind,
    }
}

/// A value of a kind, where what it is made of serves.
pub(crate) fn value_if<'t>(serves: bool, kind: IntKind) -> Sort<'t>
    ensures { the_sort result ≡ value_if serves kind }
{
    if serves {
        Sort::Value(kind)
    } else {
        Sort::Unknown
    }
}

/// A sort, where what it is made of serves.
pub(crate) fn sort_if<'t>(serves: bool, sort: Sort<'t>) -> Sort<'t>
    ensures { the_sort result ≡ sort_if serves (the_sort sort.entry) }
{
    if serves { sort } else { Sort::Unknown }
}

/// A place of a type, where there is a type.
fn place_of<'t>(ctype: Option<&'t CType>) -> Sort<'t>
    ensures { the_sort result ≡ place_of (option_map (λ t. type_tree t.now) ctype.entry) }
{
    match ctype {
        None => Sort::Unknown,
        Some(ctype) => Sort::Place(ctype),
    }
}

/// An element of a place of an array, or of an array parameter (C11 6.5.2.1p2).
pub fn element_of<'t>(sort: Sort<'t>) -> Sort<'t>
    ensures { the_sort result ≡ element_of (the_sort sort.entry) }
{
    match sort {
        Sort::Place(ctype) => place_of(element_type(ctype)),
        Sort::Value(_) => Sort::Unknown,
        Sort::Void => Sort::Unknown,
        Sort::Unknown => Sort::Unknown,
    }
}

/// Whether an expression is a place of an array, or an array parameter.
pub fn is_array(sort: Sort) -> bool
    ensures { result ≡ is_array (the_sort sort.entry) }
{
    is_sorted(element_of(sort))
}

/// A member of a place of a struct (C11 6.5.2.3p3).
pub fn member_of<'t>(sort: Sort<'t>, name: &[u8]) -> Sort<'t>
    ensures { the_sort result ≡ member_of name.now (the_sort sort.entry) }
{
    match sort {
        Sort::Place(ctype) => place_of(member_type(ctype, name)),
        Sort::Value(_) => Sort::Unknown,
        Sort::Void => Sort::Unknown,
        Sort::Unknown => Sort::Unknown,
    }
}

/// Whether an expression is a place of a struct with such a member.
pub fn has_member(sort: Sort, name: &[u8]) -> bool
    ensures { result ≡ has_member name.now (the_sort sort.entry) }
{
    is_sorted(member_of(sort, name))
}

/// Whether two types are the same.
fn is_same(a: &CType, b: &CType) -> bool
    ensures { result ≡ type_eq (type_tree a.now) (type_tree b.now) }
{
    same_type(a, b)
}

/// Whether an expression is a place of an array, or an array parameter, with elements of a type.
pub fn has_elements(sort: Sort, ctype: &CType) -> bool
    ensures { result ≡ has_elements (type_tree ctype.now) (the_sort sort.entry) }
{
    match sort {
        Sort::Place(place) => match element_type(place) {
            None => false,
            Some(element) => is_same(ctype, element),
        },
        Sort::Value(_) => false,
        Sort::Void => false,
        Sort::Unknown => false,
    }
}
