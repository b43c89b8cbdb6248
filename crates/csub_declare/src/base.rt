//! The types that declarations begin with (C11 6.7.2).
ghost use Rattle.std.specs.Prelude.{◌≡◌, IfOk, is_some, option_map};
ghost use Rattle.csub_objects.specs.Meaning.{type_tree};
ghost use Rattle.csub_rules.specs.Declarators.{base_fault, base_type, struct_of};
ghost use Rattle.csub_scopes.specs.Meanings.{scope_of};
ghost use Rattle.csub_scopes.specs.Scopes.{find_tag};

use csub_objects::CType;
use csub_rules::{Fault, fault_if};
use csub_scopes::Scope;
use csub_text::Text;
use csub_tree::TypeName;
use csub_types::IntKind;
use std::alloc::AllocError;

/// The struct of a tag, where one of this tag is defined (C11 6.7.2.3p4).
fn struct_of(scope: &Scope, tag: &Text) -> Result<Option<CType>, AllocError>
    ensures { IfOk result (λ made. option_map type_tree made ≡ struct_of tag.now (find_tag tag.now scope.now.tags)) }
{
    match scope.tags.find(tag.bytes()) {
        None => Ok(None),
        Some(tagged) => match &tagged.members {
            None => Ok(None),
            Some(members) => Ok(Some(CType::Struct(tag.copy()?, members.copy()?))),
        },
    }
}

/// Whether a struct of a tag is defined.
fn has_struct(scope: &Scope, tag: &[u8]) -> bool
    ensures { result ≡ is_some (struct_of tag.now (find_tag tag.now scope.now.tags)) }
{
    match scope.tags.find(tag) {
        None => false,
        Some(tagged) => tagged.members.is_some(),
    }
}

/// The type that a declaration begins with.
pub fn base_type(scope: &Scope, base: &TypeName) -> Result<Option<CType>, AllocError>
    ensures { IfOk result (λ made. option_map type_tree made ≡ base_type (scope_of scope.now) base.now) }
{
    match base {
        TypeName::Void => Ok(Some(CType::Num(IntKind::Int))),
        TypeName::Char => Ok(Some(CType::Num(IntKind::Char))),
        TypeName::Int => Ok(Some(CType::Num(IntKind::Int))),
        TypeName::Unsigned => Ok(Some(CType::Num(IntKind::Unsigned))),
        TypeName::Struct(tag) => struct_of(scope, &tag.text),
    }
}

/// M4 of the type that a declaration begins with: a struct that isn't defined before.
pub fn check_base(scope: &Scope, base: &TypeName) -> Option<Fault>
    ensures { result ≡ base_fault (scope_of scope.now) base.now }
{
    match base {
        TypeName::Void => None,
        TypeName::Char => None,
        TypeName::Int => None,
        TypeName::Unsigned => None,
        TypeName::Struct(tag) => fault_if(!has_struct(scope, tag.text.bytes()), 4, tag.span),
    }
}
