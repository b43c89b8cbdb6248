//! Structs (C11 6.7.2.1).
ghost use Rattle.std.specs.Prelude.{◌≡◌, List, [], None, IfOk, OnOk, if◌then◌else◌, is_some, map, option_map, ℕ};
ghost use Rattle.csub_objects.specs.Meaning.{member_tree, type_tree};
ghost use Rattle.csub_objects.specs.Types.{IsCapped, member_cells, member_levels, members_of, struct_type};
ghost use Rattle.csub_rules.specs.Declarators.{base_fault, base_type, is_too_large, object_type};
ghost use Rattle.csub_rules.specs.Faults.{◌or_earlier◌};
ghost use Rattle.csub_rules.specs.Labels.{past_names, twice_fault};
ghost use Rattle.csub_scopes.specs.Meanings.{scope_of};
ghost use Rattle.csub_tree.specs.Declarations.{declarator_tree, declare_tree};
ghost use Rattle.csub_units.specs.Gathered.{AreSized, Differ, behind, gathered, line_members, one};
ghost use Rattle.csub_rules.specs.Structs.{field_fault, field_names, fields_fault, line_fault, members, past_struct, struct_fault};

use crate::file::{check_tag, declare_tag};
use csub_bodies::stands_in;
use csub_declare::{base_type, check_base, check_slot};
use csub_objects::{CType, Member, Members, cells, levels};
use csub_rules::{Fault, earlier, fault_if, is_reserved};
use csub_scopes::{Counts, Scope};
use csub_text::Text;
use csub_tree::{Declarator, Declare, Name};
use std::alloc::{AllocError, Global};

/// What is found of members.
#[derive(Drop)]
struct Fields {
    /// The members so far, where each has a type.
    members: Option<Vec<Member>>,
    /// The first rule that one of them breaks.
    fault: Option<Fault>,
}

/// One member more.
fn with_member(
    members: Option<Vec<Member>>,
    name: &Text,
    ctype: Option<CType>,
) -> Result<Option<Vec<Member>>, AllocError>
    ensures { IfOk result (λ made. gathered made ≡ behind (gathered members) (one name.now (option_map type_tree ctype))) }
{
    match members {
        None => Ok(None),
        Some(mut members) => match ctype {
            None => Ok(None),
            Some(ctype) => {
                let name = name.copy()?;
                members.push(Member { name, ctype })?;
                Ok(Some(members))
            }
        },
    }
}

/// A member behind a type, put behind others.
fn check_field(
    alloc: Global,
    scope: &Scope,
    base: &Option<CType>,
    before: Fields,
    d: &Declarator,
) -> Result<Fields, AllocError>
    ensures members { IfOk result (λ found. gathered found.members ≡ behind (gathered before.members) (one d.now.name.text (object_type (scope_of scope.now) (option_map type_tree base.now) (declarator_tree d.now).dims))) }
    ensures fault { IfOk result (λ found. found.fault ≡ before.fault or_earlier field_fault (scope_of scope.now) (option_map type_tree base.now) (declarator_tree d.now)) }
{
    let reserved = fault_if(is_reserved(d.name.text.bytes()), 3, d.name.span);
    let slot = check_slot(alloc, scope, base, d.name.span, d.dims.as_slice())?;
    let fault = earlier(before.fault, earlier(reserved, slot.fault));
    let members = with_member(before.members, &d.name.text, slot.ctype)?;
    Ok(Fields { members, fault })
}

/// The members of a declaration, put behind others.
fn check_line(
    alloc: Global,
    scope: &Scope,
    base: &Option<CType>,
    before: Fields,
    vars: &[Declarator],
) -> Result<Fields, AllocError>
    ensures members { IfOk result (λ found. gathered found.members ≡ behind (gathered before.members) (line_members (scope_of scope.now) (option_map type_tree base.now) (map declarator_tree vars.now))) }
    ensures fault { IfOk result (λ found. found.fault ≡ before.fault or_earlier line_fault (scope_of scope.now) (option_map type_tree base.now) (map declarator_tree vars.now)) }
{
    let mut found = before;
    for d in vars {
        found = check_field(alloc, scope, base, found, d)?;
    }
    Ok(found)
}

/// A declaration of members, put behind others.
fn check_declared(
    alloc: Global,
    scope: &Scope,
    before: Fields,
    d: &Declare,
) -> Result<Fields, AllocError>
    ensures members { IfOk result (λ found. gathered found.members ≡ behind (gathered before.members) (line_members (scope_of scope.now) (base_type (scope_of scope.now) d.now.base) (declare_tree d.now).vars)) }
    ensures fault { IfOk result (λ found. found.fault ≡ before.fault or_earlier base_fault (scope_of scope.now) d.now.base or_earlier line_fault (scope_of scope.now) (base_type (scope_of scope.now) d.now.base) (declare_tree d.now).vars) }
{
    let base = base_type(scope, &d.base)?;
    let fault = earlier(before.fault, check_base(scope, &d.base));
    let before = Fields {
        members: before.members,
        fault,
    };
    check_line(alloc, scope, &base, before, d.vars.as_slice())
}

/// The members of a struct.
fn check_fields(alloc: Global, scope: &Scope, ds: &[Declare]) -> Result<Fields, AllocError>
    ensures members { IfOk result (λ found. gathered found.members ≡ members (scope_of scope.now) (map declare_tree ds.now)) }
    ensures fault { IfOk result (λ found. found.fault ≡ fields_fault (scope_of scope.now) (map declare_tree ds.now)) }
{
    let mut found = Fields {
        members: Some(Vec::new(alloc)),
        fault: None,
    };
    for d in ds {
        found = check_declared(alloc, scope, found, d)?;
    }
    Ok(found)
}

/// M2 of the members of a declaration, behind those of these names.
fn twice_in_line(seen: &mut Counts, vars: &[Declarator]) -> Result<Option<Fault>, AllocError>
    ensures fault { IfOk result (λ fault. fault ≡ twice_fault seen.old (map (λ v. v.name) (map declarator_tree vars.now))) }
    ensures seen { OnOk result (seen.new ≡ past_names seen.old (map (λ v. v.name) (map declarator_tree vars.now))) }
{
    let mut least = None;
    for d in vars {
        let again = fault_if(stands_in(seen, d.name.text.bytes()), 2, d.name.span);
        seen.add(&d.name.text)?;
        least = earlier(least, again);
    }
    Ok(least)
}

/// M2 of the members of a struct, which have a name space of their own (C11 6.2.3).
fn check_twice(alloc: Global, ds: &[Declare]) -> Result<Option<Fault>, AllocError>
    ensures { IfOk result (λ fault. fault ≡ twice_fault [] (field_names (map declare_tree ds.now))) }
{
    let mut seen = Counts::new(alloc);
    let mut least = None;
    for d in ds {
        let again = twice_in_line(&mut seen, d.vars.as_slice())?;
        least = earlier(least, again);
    }
    Ok(least)
}

/// The number n, or 65,537 where it is larger than 65,536.
fn cap(n: u64) -> u64
    ensures { IsCapped result n }
{
    if n <= 65_536 { n } else { 65_537 }
}

/// How many cells members have, 65,537 where there are more than 65,536.
fn cells_of(members: &[Member]) -> u64
    ensures { IsCapped result (member_cells (members_of (map member_tree members.now))) }
{
    let mut all = 0;
    for i in (0..members.len()).rev() {
        all = cap(cells(&members[i].ctype) + all);
    }
    all
}

/// How many structs stand inside each other in members, 65,537 where there are more than 65,536.
fn levels_of(members: &[Member]) -> u64
    ensures { IsCapped result (member_levels (members_of (map member_tree members.now))) }
{
    let mut most = 0;
    for i in (0..members.len()).rev() {
        most = levels(&members[i].ctype).max(most);
    }
    most
}

/// M10 of a struct by its members, each of which an object may have.
fn is_too_large(members: &Option<Vec<Member>>) -> bool
    requires { AreSized (gathered members.now) }
    ensures { (tag : List ℕ) → result ≡ is_too_large (option_map (λ ms. struct_type tag (members_of ms)) (gathered members.now)) }
{
    match members {
        None => false,
        Some(members) => {
            let members = members.as_slice();
            cells_of(members) > 65_536 || levels_of(members) >= 32
        }
    }
}

/// The members of a struct, where it breaks no rule.
fn sound_members(
    alloc: Global,
    fault: Option<Fault>,
    members: Option<Vec<Member>>,
) -> Result<Option<Members>, AllocError>
    requires { fault ≡ None → Differ (gathered members) }
    ensures { IfOk result (λ made. option_map members_of made ≡ (if is_some fault then None else option_map members_of (gathered members))) }
{
    if fault.is_some() {
        return Ok(None);
    }
    match members {
        None => Ok(None),
        Some(members) => Members::make(alloc, members),
    }
}

/// The first rule that a struct breaks. Its tag is declared then, as a struct where it breaks none. An `Err` is want of
/// memory.
pub fn check_struct(
    alloc: Global,
    scope: &mut Scope,
    tag: &Name,
    ds: &[Declare],
) -> Result<Option<Fault>, AllocError>
    ensures fault { IfOk result (λ fault. fault ≡ struct_fault (scope_of scope.old) tag.now (map declare_tree ds.now)) }
    ensures past { OnOk result (scope_of scope.new ≡ past_struct (scope_of scope.old) tag.now (map declare_tree ds.now)) }
{
    let tagged = check_tag(scope, tag);
    let fields = check_fields(alloc, scope, ds)?;
    let large = fault_if(is_too_large(&fields.members), 10, tag.span);
    let twice = check_twice(alloc, ds)?;
    let fault = earlier(earlier(earlier(tagged, large), fields.fault), twice);
    let members = sound_members(alloc, fault, fields.members)?;
    declare_tag(scope, &tag.text, members)?;
    Ok(fault)
}
