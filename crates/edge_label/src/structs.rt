//! Types with numbers in the place of structs.
ghost use Rattle.std.specs.Prelude.{◌≡◌, ◌++◌, ◌∷◌, [], Some, cond, IsTrue, IfOk, OnOk, OnErr, IfSome, map};
ghost use Rattle.std.specs.Map.{lookup};
ghost use Rattle.std.specs.Str.{bytes_eq};
ghost use Rattle.csub_objects.specs.Types.{Name, number_type, struct_type, members_of};
ghost use Rattle.csub_objects.specs.Meaning.{type_tree, member_tree};
ghost use Rattle.label_code.specs.Codes.{name_code, type_code};
ghost use Rattle.edge_label.specs.Known.{AreStructs};
ghost use Rattle.edge_label.specs.Structs.{HasStruct, AppendsType, AppendsMembers};
ghost use Rattle.edge_label.specs.Tables.{Extends};
ghost use Rattle.edge_label.specs.Uses.{Tags, IsTagged, AreTagged};

use crate::table::CodeTable;
use csub_semantics::{CType, Member};
use csub_types::IntKind;
use label_code::{kind_number, push_name, push_numbered};
use std::alloc::{AllocError, Global};
use std::collections::HashMap;

/// Numbers of structs by their tags. So the members of a struct, which may be many, are gone over once for each tag.
#[derive(Drop)]
pub struct TagNumbers<'a> {
    /// Whether a tag has the same members wherever it stands.
    pub trusted: bool,
    /// The numbers by the tags.
    pub by_tag: HashMap<&'a [u8], u64>,
}

impl<'a> TagNumbers<'a> {
    /// No number.
    pub fn new(alloc: Global, trusted: bool) -> TagNumbers<'a>
        ensures trusted { result.trusted ≡ trusted }
        ensures none { result.by_tag.entries ≡ [] }
    {
        TagNumbers {
            trusted,
            by_tag: HashMap::new(alloc),
        }
    }
}

/// Appends the code of a number's type.
fn push_number(out: &mut Vec<u64>, kind: IntKind) -> Result<(), AllocError>
    ensures { OnOk result (out.new.items ≡ out.old.items ++ type_code (number_type kind)) }
{
    out.push(0)?;
    Ok(out.push(kind_number(kind))?)
}

/// Appends how the code of an array's type begins, before that of its elements.
fn begin_array(out: &mut Vec<u64>, length: u32) -> Result<(), AllocError>
    ensures { OnOk result (out.new.items ≡ out.old.items ++ 1 ∷ length ∷ []) }
{
    out.push(1)?;
    Ok(out.push(u64::from(length))?)
}

/// Appends how the code of a member begins, before that of its type.
fn begin_member(out: &mut Vec<u64>, name: &[u8]) -> Result<(), AllocError>
    ensures { OnOk result (out.new.items ≡ out.old.items ++ 1 ∷ name_code name.now) }
{
    out.push(1)?;
    push_name(out, name)
}

/// How the code of a struct begins, before those of its members.
fn begin_struct(alloc: Global, tag: &[u8]) -> Result<Vec<u64>, AllocError>
    ensures { IfOk result (λ code. code.items ≡ 2 ∷ name_code tag.now) }
{
    let mut code = Vec::new(alloc);
    code.push(2)?;
    push_name(&mut code, tag)?;
    Ok(code)
}

/// Keeps the number of a tag. An `Err` is want of memory.
fn keep_number<'a>(tags: &mut TagNumbers<'a>, tag: &'a [u8], number: u64) -> Result<(), AllocError>
    ensures kept { OnOk result ((name : Name) → lookup (λ key. bytes_eq name key.now) tags.new.by_tag.entries
        ≡ cond (bytes_eq tag.now name) (Some number) (lookup (λ key. bytes_eq name key.now) tags.old.by_tag.entries)) }
    ensures same { OnErr result (tags.new.by_tag.entries ≡ tags.old.by_tag.entries) }
    ensures trusted { tags.new.trusted ≡ tags.old.trusted }
{
    tags.by_tag.insert(tag, number)?;
    Ok(())
}

/// Appends the code of a type, with numbers in the place of structs. An `Err` is want of memory.
#[cycle(structs)]
pub fn push_short<'a>(
    alloc: Global,
    out: &mut Vec<u64>,
    structs: &mut CodeTable,
    tags: &mut TagNumbers<'a>,
    ctype: &'a CType,
) -> Result<(), AllocError>
    ensures short { OnOk result ((by_tag : Tags) → (IsTrue tags.old.trusted → IsTagged by_tag (type_tree ctype.now)) → AreStructs by_tag structs.old tags.old →
        AppendsType structs.new (type_tree ctype.now) out.old.items out.new.items) }
    ensures structs { (by_tag : Tags) → (IsTrue tags.old.trusted → IsTagged by_tag (type_tree ctype.now)) → AreStructs by_tag structs.old tags.old →
        AreStructs by_tag structs.new tags.new }
    ensures grows { Extends structs.old structs.new }
    ensures trusted { tags.new.trusted ≡ tags.old.trusted }
{
    match ctype {
        CType::Num(kind) => push_number(out, *kind),
        CType::Array(element, length) => {
            begin_array(out, *length)?;
            push_short(alloc, out, structs, tags, element.ctype())
        }
        CType::Struct(tag, members) => {
            let number = find_struct(alloc, structs, tags, tag.bytes(), members.items())?;
            push_numbered(out, number)
        }
        CType::Loose(element) => {
            out.push(3)?;
            push_short(alloc, out, structs, tags, element.ctype())
        }
    }
}

/// Appends the code of members, with numbers in the place of structs.
#[cycle(structs)]
fn push_short_members<'a>(
    alloc: Global,
    out: &mut Vec<u64>,
    structs: &mut CodeTable,
    tags: &mut TagNumbers<'a>,
    members: &'a [Member],
) -> Result<(), AllocError>
    ensures short { OnOk result ((by_tag : Tags) → (IsTrue tags.old.trusted → AreTagged by_tag (members_of (map member_tree members.now))) → AreStructs by_tag structs.old tags.old →
        AppendsMembers structs.new (members_of (map member_tree members.now)) out.old.items out.new.items) }
    ensures structs { (by_tag : Tags) → (IsTrue tags.old.trusted → AreTagged by_tag (members_of (map member_tree members.now))) → AreStructs by_tag structs.old tags.old →
        AreStructs by_tag structs.new tags.new }
    ensures grows { Extends structs.old structs.new }
    ensures trusted { tags.new.trusted ≡ tags.old.trusted }
{
    for member in members {
        begin_member(out, member.name.bytes())?;
        push_short(alloc, out, structs, tags, &member.ctype)?;
    }
    Ok(out.push(0)?)
}

/// The number of the struct of a tag, which is looked up, and else found out and kept.
#[cycle(structs)]
fn find_struct<'a>(
    alloc: Global,
    structs: &mut CodeTable,
    tags: &mut TagNumbers<'a>,
    tag: &'a [u8],
    members: &'a [Member],
) -> Result<u64, AllocError>
    ensures number { IfOk result (λ s. (by_tag : Tags) → (IsTrue tags.old.trusted → IsTagged by_tag (struct_type tag.now (members_of (map member_tree members.now)))) →
        AreStructs by_tag structs.old tags.old → HasStruct structs.new s tag.now (members_of (map member_tree members.now))) }
    ensures structs { (by_tag : Tags) → (IsTrue tags.old.trusted → IsTagged by_tag (struct_type tag.now (members_of (map member_tree members.now)))) →
        AreStructs by_tag structs.old tags.old → AreStructs by_tag structs.new tags.new }
    ensures grows { Extends structs.old structs.new }
    ensures trusted { tags.new.trusted ≡ tags.old.trusted }
{
    if let Some(number) = known_number(tags, tag) {
        return Ok(number);
    }
    let number = number_struct(alloc, structs, tags, tag, members)?;
    keep_number(tags, tag, number)?;
    Ok(number)
}

/// The number of the struct with a tag and members. An `Err` is want of memory.
#[cycle(structs)]
pub fn number_struct<'a>(
    alloc: Global,
    structs: &mut CodeTable,
    tags: &mut TagNumbers<'a>,
    tag: &[u8],
    members: &'a [Member],
) -> Result<u64, AllocError>
    ensures number { IfOk result (λ s. (by_tag : Tags) → (IsTrue tags.old.trusted → AreTagged by_tag (members_of (map member_tree members.now))) →
        AreStructs by_tag structs.old tags.old → HasStruct structs.new s tag.now (members_of (map member_tree members.now))) }
    ensures structs { (by_tag : Tags) → (IsTrue tags.old.trusted → AreTagged by_tag (members_of (map member_tree members.now))) →
        AreStructs by_tag structs.old tags.old → AreStructs by_tag structs.new tags.new }
    ensures grows { Extends structs.old structs.new }
    ensures trusted { tags.new.trusted ≡ tags.old.trusted }
{
    let mut code = begin_struct(alloc, tag)?;
    push_short_members(alloc, &mut code, structs, tags, members)?;
    structs.number(code)
}

/// The number that a tag has, where tags are trusted.
fn known_number(tags: &TagNumbers<'_>, tag: &[u8]) -> Option<u64>
    ensures { IfSome result (λ s. IsTrue tags.now.trusted × (lookup (λ key. bytes_eq tag.now key.now) tags.now.by_tag.entries ≡ Some s)) }
{
    if !tags.trusted {
        return None;
    }
    let number = tags.by_tag.get(tag)?;
    Some(*number)
}
