//! The parts of types.
ghost use Rattle.std.specs.Prelude.{◌≡◌, ◌↔◌, IsTrue, IsSome, IfSome, map, option_map};
ghost use Rattle.csub_objects.specs.Meaning.{type_tree, member_tree};
ghost use Rattle.csub_objects.specs.Parts.{has_parts, member_at, part_type};
ghost use Rattle.csub_objects.specs.Types.{IsCappedSome, IsNumber, array_length, element_type, first_cell, member_type, members_of, number_kind};

use crate::types::{CType, Member};
use csub_types::IntKind;

/// Whether a type is that of numbers.
pub fn is_number(ctype: &CType) -> bool
    ensures { IsTrue result ↔ IsNumber (type_tree ctype.now) }
{
    match ctype {
        CType::Num(_) => true,
        _ => false,
    }
}

/// The kind of a number type, `int` where the type is none.
pub fn number_kind(ctype: &CType) -> IntKind
    ensures { result ≡ number_kind (type_tree ctype.now) }
{
    match ctype {
        CType::Num(kind) => *kind,
        _ => IntKind::Int,
    }
}

/// The type of the elements of an array or an array parameter.
pub fn element_type(ctype: &CType) -> Option<&CType>
    ensures { option_map (λ t. type_tree t.now) result ≡ element_type (type_tree ctype.now) }
{
    match ctype {
        CType::Array(element, _) | CType::Loose(element) => Some(element.ctype()),
        _ => None,
    }
}

/// How many elements an array has, 0 where the type says none.
pub fn array_length(ctype: &CType) -> u32
    ensures { result ≡ array_length (type_tree ctype.now) }
{
    match ctype {
        CType::Array(_, length) => *length,
        _ => 0,
    }
}

/// The type of a struct's member of a name (C11 6.5.2.3p3), found by a hash.
pub fn member_type<'a>(ctype: &'a CType, name: &[u8]) -> Option<&'a CType>
    ensures { option_map (λ t. type_tree t.now) result ≡ member_type name.now (type_tree ctype.now) }
{
    match ctype {
        CType::Struct(_, members) => Some(&members.find(name)?.ctype),
        _ => None,
    }
}

/// The first cell of a struct's member of a name (C11 6.7.2.1p15), 65,537 where more than 65,536 are before it; found by
/// a hash.
pub fn first_cell(ctype: &CType, name: &[u8]) -> Option<u64>
    ensures some { IfSome result (λ cell. IsCappedSome cell (first_cell name.now (type_tree ctype.now))) }
    ensures exact { IsSome result ↔ IsSome (first_cell name.now (type_tree ctype.now)) }
{
    match ctype {
        CType::Struct(_, members) => members.first_cell(name),
        _ => None,
    }
}

/// The type of member number i of a struct.
#[tactic(auto, using(crate::proofs::Numbered::member_at_within, crate::proofs::Numbered::member_at_past))]
fn member_at(members: &[Member], i: usize) -> Option<&CType>
    ensures { option_map (λ t. type_tree t.now) result ≡ member_at (members_of (map member_tree members.now)) i }
{
    if i < members.len() {
        Some(&members[i].ctype)
    } else {
        None
    }
}

/// The type of part number i of an object, from 0: an element of an array, or a member of a struct (C11 6.7.9p17);
/// `None` where it has fewer parts.
pub fn part_type(ctype: &CType, i: usize) -> Option<&CType>
    ensures { option_map (λ t. type_tree t.now) result ≡ part_type (type_tree ctype.now) i }
{
    match ctype {
        CType::Num(_) => None,
        CType::Array(element, length) => {
            if i < *length as usize {
                Some(element.ctype())
            } else {
                None
            }
        }
        CType::Struct(_, members) => member_at(members.items(), i),
        CType::Loose(_) => None,
    }
}

/// Whether an object of a type has parts: an array or a struct does.
pub fn has_parts(ctype: &CType) -> bool
    ensures { result ≡ has_parts (type_tree ctype.now) }
{
    match ctype {
        CType::Num(_) => false,
        CType::Array(_, _) => true,
        CType::Struct(_, _) => true,
        CType::Loose(_) => false,
    }
}
