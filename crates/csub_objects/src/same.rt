//! Whether two types are the same.
ghost use Rattle.std.specs.Prelude.{◌≡◌, ◌↔◌, IsTrue, map};
ghost use Rattle.csub_objects.specs.Meaning.{type_tree, member_tree};

use crate::types::{CType, Member};

/// Whether two types are the same, by their whole trees: equal tags, and members of equal names and types in order (C11
/// 6.2.7p1). It takes a step for each part of the types.
#[cycle(same)]
pub fn same_type(a: &CType, b: &CType) -> bool
    ensures equal { IsTrue result ↔ (type_tree a.now ≡ type_tree b.now) }
{
    match (a, b) {
        (CType::Num(kind), CType::Num(other)) => *kind == *other,
        (CType::Array(element, length), CType::Array(other, count)) => {
            *length == *count && same_type(element.ctype(), other.ctype())
        }
        (CType::Struct(tag, members), CType::Struct(name, others)) => {
            *tag == *name && same_members(members.items(), others.items())
        }
        (CType::Loose(element), CType::Loose(other)) => same_type(element.ctype(), other.ctype()),
        _ => false,
    }
}

/// Whether two lists of members are equal, in order. It takes a step for each part of their types.
#[cycle(same)]
pub fn same_members(a: &[Member], b: &[Member]) -> bool
    ensures { IsTrue result ↔ (map member_tree a.now ≡ map member_tree b.now) }
{
    if a.len() != b.len() {
        return false;
    }
    for i in 0..a.len() {
        if !same_member(&a[i], &b[i]) {
            return false;
        }
    }
    true
}

/// Whether two members are equal.
#[cycle(same)]
fn same_member(a: &Member, b: &Member) -> bool
    ensures { IsTrue result ↔ (member_tree a.now ≡ member_tree b.now) }
{
    a.name == b.name && same_type(&a.ctype, &b.ctype)
}
