//! Enumerations (C11 6.7.2.2).
ghost use Rattle.std.specs.Prelude.{◌≡◌, IfOk, IfSome, OnOk, map, pos};
ghost use Rattle.csub_types.specs.Kinds.{IsOf};
ghost use Rattle.csub_types.specs.declared.kind.IntKind.TheVariants.{Int};
ghost use Rattle.csub_rules.specs.Constants.{enum_value};
ghost use Rattle.csub_scopes.specs.Meanings.{meaning_of, scope_of};
ghost use Rattle.csub_tree.specs.Units.{constant_tree};
ghost use Rattle.csub_rules.specs.Enums.{constant_fault, constant_meaning, constants_fault, enumeration_fault, past_constant, past_constants, past_enum, past_tag, perhaps_tag_fault, value_after};

use crate::file::{check_name, check_tag, declare_name, declare_tag};
use csub_check::{check_enum_constant, enum_value};
use csub_rules::{Fault, earlier};
use csub_scopes::{Meaning, Scope};
use csub_tree::{Constant, Name};
use std::alloc::AllocError;

/// The value of a constant without an expression, behind one with this value (C11 6.7.2.2p3).
fn value_after(next: i64, value: Option<i64>) -> i64
    requires { IfSome value (IsOf Int) }
    ensures { result ≡ value_after next value }
{
    match value {
        None => next,
        Some(value) => value + 1,
    }
}

/// What an enum constant means.
fn constant_meaning(value: Option<i64>) -> Meaning
    ensures { meaning_of result ≡ constant_meaning value }
{
    match value {
        None => Meaning::Untyped,
        Some(value) => Meaning::Constant(value),
    }
}

/// What is found of an enum constant.
#[derive(Clone, Copy)]
struct Found {
    /// The first rule that it breaks.
    fault: Option<Fault>,
    /// The value of the next one, where it has no expression.
    next: i64,
}

/// An enum constant, which counts behind its value (C11 6.2.1p7).
fn check_constant(scope: &mut Scope, next: i64, c: &Constant) -> Result<Found, AllocError>
    ensures fault { IfOk result (λ found. found.fault ≡ constant_fault (scope_of scope.old) next (constant_tree c.now)) }
    ensures next { IfOk result (λ found. found.next ≡ value_after next (enum_value (scope_of scope.old) next (constant_tree c.now).value)) }
    ensures past { OnOk result (scope_of scope.new ≡ past_constant (scope_of scope.old) next (constant_tree c.now)) }
{
    let named = check_name(scope, &c.name);
    let broken = check_enum_constant(scope, next, c.name.span, &c.value);
    let value = enum_value(scope, next, &c.value);
    declare_name(scope, &c.name.text, constant_meaning(value))?;
    Ok(Found {
        fault: earlier(named, broken),
        next: value_after(next, value),
    })
}

/// Enum constants, each of which sees those before it.
fn check_constants(scope: &mut Scope, constants: &[Constant]) -> Result<Option<Fault>, AllocError>
    ensures fault { IfOk result (λ fault. fault ≡ constants_fault (scope_of scope.old) (pos 0) (map constant_tree constants.now)) }
    ensures past { OnOk result (scope_of scope.new ≡ past_constants (scope_of scope.old) (pos 0) (map constant_tree constants.now)) }
{
    let mut least = None;
    let mut next = 0;
    for c in constants {
        let found = check_constant(scope, next, c)?;
        least = earlier(least, found.fault);
        next = found.next;
    }
    Ok(least)
}

/// The tag of an enumeration, where it has one. It is declared then.
fn check_perhaps_tag(scope: &mut Scope, tag: &Option<Name>) -> Result<Option<Fault>, AllocError>
    ensures fault { IfOk result (λ fault. fault ≡ perhaps_tag_fault (scope_of scope.old) tag.now) }
    ensures past { OnOk result (scope_of scope.new ≡ past_tag (scope_of scope.old) tag.now) }
{
    match tag {
        None => Ok(None),
        Some(tag) => {
            let fault = check_tag(scope, tag);
            declare_tag(scope, &tag.text, None)?;
            Ok(fault)
        }
    }
}

/// The first rule that an enumeration breaks. Its tag and its constants are declared then. An `Err` is want of memory.
pub fn check_enum(
    scope: &mut Scope,
    tag: &Option<Name>,
    constants: &[Constant],
) -> Result<Option<Fault>, AllocError>
    ensures fault { IfOk result (λ fault. fault ≡ enumeration_fault (scope_of scope.old) tag.now (map constant_tree constants.now)) }
    ensures past { OnOk result (scope_of scope.new ≡ past_enum (scope_of scope.old) tag.now (map constant_tree constants.now)) }
{
    let tagged = check_perhaps_tag(scope, tag)?;
    let constants = check_constants(scope, constants)?;
    Ok(earlier(tagged, constants))
}
