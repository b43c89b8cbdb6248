//! Whether numbers are what the cells of an object hold at first.
ghost use Rattle.std.specs.Prelude.{◌↔◌, [], ◌∷◌, IsTrue, map, option_map};
ghost use Rattle.std.specs.List.{repeat};
ghost use Rattle.csub_objects.specs.Meaning.{type_tree, member_tree};
ghost use Rattle.csub_objects.specs.Types.{kinds, member_kinds, members_of};
ghost use Rattle.csub_validity.specs.Valid.{AreOf};
ghost use Rattle.csub_decisions.specs.Checks.{AreBehind};

use crate::expressions::is_of;
use csub_objects::{CType, Member};
use csub_types::IntKind;

/// Whether numbers are initial contents of an object of a type: a number for each of its cells, in their order, of the
/// cell's kind. This takes a step for each cell.
pub fn are_contents(ctype: &CType, numbers: &[i64]) -> bool
    ensures { IsTrue result ↔ AreOf (kinds (type_tree ctype.now)) numbers.now }
{
    match behind_object(ctype, numbers) {
        Some(rest) => rest.is_empty(),
        None => false,
    }
}

/// The numbers behind those of an object's cells; `None` where these are too few, or one isn't of its cell's kind.
#[cycle(contents)]
fn behind_object<'a>(ctype: &CType, numbers: &'a [i64]) -> Option<&'a [i64]>
    ensures { AreBehind (kinds (type_tree ctype.now)) numbers.now (option_map (λ rest. rest.now) result) }
{
    match ctype {
        CType::Num(kind) => behind_number(*kind, numbers),
        CType::Array(element, length) => behind_elements(element.ctype(), *length, numbers),
        CType::Struct(_, members) => behind_members(members.items(), numbers),
        CType::Loose(_) => behind_number(IntKind::Int, numbers),
    }
}

/// The same of one number.
fn behind_number<'a>(kind: IntKind, numbers: &'a [i64]) -> Option<&'a [i64]>
    ensures { AreBehind (kind ∷ []) numbers.now (option_map (λ rest. rest.now) result) }
{
    match numbers {
        [first, rest @ ..] if is_of(kind, *first) => Some(rest),
        _ => None,
    }
}

/// The same of the elements of an array.
#[cycle(contents)]
fn behind_elements<'a>(element: &CType, length: u32, numbers: &'a [i64]) -> Option<&'a [i64]>
    ensures { AreBehind (repeat length (kinds (type_tree element.now))) numbers.now (option_map (λ rest. rest.now) result) }
{
    let mut rest = numbers;
    for _ in 0..length {
        rest = behind_object(element, rest)?;
    }
    Some(rest)
}

/// The same of the members of a struct.
#[cycle(contents)]
fn behind_members<'a>(members: &[Member], numbers: &'a [i64]) -> Option<&'a [i64]>
    ensures { AreBehind (member_kinds (members_of (map member_tree members.now))) numbers.now (option_map (λ rest. rest.now) result) }
{
    let mut rest = numbers;
    for member in members {
        rest = behind_object(&member.ctype, rest)?;
    }
    Some(rest)
}
