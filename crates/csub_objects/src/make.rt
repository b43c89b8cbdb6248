//! How types are made and copied, and what is counted of members when a struct is made.
ghost use Rattle.std.specs.Prelude.{◌≡◌, ◌↔◌, IsTrue, IsSome, IfOk, IfSome, map};
ghost use Rattle.csub_objects.specs.Meaning.{type_tree, member_tree};
ghost use Rattle.csub_objects.specs.Names.{AreFirst};
ghost use Rattle.csub_objects.specs.Types.{HaveArrays, HaveDifferentNames, IsCapped, array_type, loose_type, struct_type};
ghost use Rattle.csub_objects.specs.Types.{member_cells, member_levels, members_of};

use crate::count::{cap, cells, has_arrays, levels};
use crate::names::NameSet;
use crate::types::{CType, Element, Member, Members};
use csub_text::Text;
use std::alloc::{AllocError, Global};

/// The array type of an element type and a length. An `Err` is want of memory.
pub fn array_of(alloc: Global, element: CType, length: u32) -> Result<CType, AllocError>
    ensures { IfOk result (λ made. type_tree made ≡ array_type (type_tree element) length) }
{
    Ok(CType::Array(Element::new(alloc, element)?, length))
}

/// The type of an array parameter with elements of a type (C11 6.7.6.3p7). An `Err` is want of memory.
pub fn loose_of(alloc: Global, element: CType) -> Result<CType, AllocError>
    ensures { IfOk result (λ made. type_tree made ≡ loose_type (type_tree element)) }
{
    Ok(CType::Loose(Element::new(alloc, element)?))
}

/// The struct type of a tag and members, and `None` exactly where two members have one name (C11 6.7p3). It takes a few
/// passes over the members and a hash of each name. An `Err` is want of memory.
pub fn struct_of(
    alloc: Global,
    tag: Text,
    members: Vec<Member>,
) -> Result<Option<CType>, AllocError>
    ensures exact { IfOk result (λ made. IsSome made ↔ HaveDifferentNames (map member_tree members.items)) }
    ensures value { IfOk result (λ made. IfSome made (λ ctype. type_tree ctype ≡ struct_type tag (members_of (map member_tree members.items)))) }
{
    match Members::make(alloc, members)? {
        Some(made) => Ok(Some(CType::Struct(tag, made))),
        None => Ok(None),
    }
}

/// The same type, which shares what this one holds: it takes constant time and no memory, whatever the type. An `Err` is
/// a full count of those that share it.
pub fn copy_type(ctype: &CType) -> Result<CType, AllocError>
    ensures same { IfOk result (λ made. made ≡ ctype.now) }
    ensures value { IfOk result (λ made. type_tree made ≡ type_tree ctype.now) }
{
    match ctype {
        CType::Num(kind) => Ok(CType::Num(*kind)),
        CType::Array(element, length) => Ok(CType::Array(element.copy()?, *length)),
        CType::Struct(tag, members) => Ok(CType::Struct(tag.copy()?, members.copy()?)),
        CType::Loose(element) => Ok(CType::Loose(element.copy()?)),
    }
}

/// The names of members, and `None` exactly where two have one name.
pub(crate) fn names_of(alloc: Global, members: &[Member]) -> Result<Option<NameSet>, AllocError>
    ensures exact { IfOk result (λ made. IsSome made ↔ HaveDifferentNames (map member_tree members.now)) }
    ensures value { IfOk result (λ made. IfSome made (λ names. names ≡ map (λ m. m.name) members.now)) }
{
    let mut names = NameSet::new(alloc);
    for member in members {
        let name = member.name.bytes();
        if names.find(name).is_some() {
            return Ok(None);
        }
        names.add(name.to_vec(alloc)?)?;
    }
    Ok(Some(names))
}

/// The first cell of each member, 65,537 where more than 65,536 are before it.
pub(crate) fn firsts_of(alloc: Global, members: &[Member]) -> Result<Vec<u64>, AllocError>
    ensures { IfOk result (λ firsts. AreFirst firsts.items (map member_tree members.now)) }
{
    let mut firsts = Vec::new(alloc);
    let mut before = 0;
    for member in members {
        firsts.push(before)?;
        before = cap(before + cells(&member.ctype));
    }
    Ok(firsts)
}

/// How many cells members have, 65,537 where there are more than 65,536.
pub(crate) fn cells_of(members: &[Member]) -> u64
    ensures { IsCapped result (member_cells (members_of (map member_tree members.now))) }
{
    let mut all = 0;
    for i in (0..members.len()).rev() {
        let member = &members[i];
        all = cap(cells(&member.ctype) + all);
    }
    all
}

/// How many structs stand inside each other in members, 65,537 where there are more than 65,536.
pub(crate) fn levels_of(members: &[Member]) -> u64
    ensures { IsCapped result (member_levels (members_of (map member_tree members.now))) }
{
    let mut most = 0;
    for i in (0..members.len()).rev() {
        let member = &members[i];
        most = levels(&member.ctype).max(most);
    }
    most
}

/// Whether the arrays in members are within their limits.
pub(crate) fn have_arrays(members: &[Member]) -> bool
    ensures { IsTrue result ↔ HaveArrays (members_of (map member_tree members.now)) }
{
    for member in members {
        if !has_arrays(&member.ctype) {
            return false;
        }
    }
    true
}
