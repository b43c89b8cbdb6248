//! Declared names with their lengths (C11 6.7.6.2).
ghost use Rattle.std.specs.Prelude.{◌≡◌, ◌||◌, IfOk, map, length, option_map};
ghost use Rattle.csub_objects.specs.Meaning.{type_tree};
ghost use Rattle.csub_rules.specs.Constants.{constant};
ghost use Rattle.csub_rules.specs.Declarators.{array_of, as_length, declared_type, dims_fault, if_sized, is_bad_length, is_too_large, length_of, object_type, slot_fault};
ghost use Rattle.csub_rules.specs.Faults.{◌or_earlier◌};
ghost use Rattle.csub_rules.specs.Sizes.{is_sized};
ghost use Rattle.csub_rules.specs.Uses.{as_constant, use_fault};
ghost use Rattle.csub_scopes.specs.Meanings.{scope_of};
ghost use Rattle.csub_tree.specs.Expressions.{expr_tree};
ghost use Rattle.csub_declare.specs.Lengths.{any_bad};

use csub_check::check_constant;
use csub_objects::{CType, array_of, copy_type, is_sized};
use csub_rules::{Fault, earlier, fault_if};
use csub_scopes::Scope;
use csub_text::Span;
use csub_tree::Expr;
use std::alloc::{AllocError, Global};

/// What is found of a declared object, its initialiser aside.
#[derive(Drop)]
pub struct Slot {
    /// Its type; none where its declaration breaks a rule on types.
    pub ctype: Option<CType>,
    /// The first rule that its declarator breaks.
    pub fault: Option<Fault>,
}

/// What is found of lengths.
#[derive(Drop)]
struct Lengths {
    /// The type with them, where each is known.
    ctype: Option<CType>,
    /// One is a constant and no length.
    bad: bool,
    /// The first rule that one of them breaks by itself.
    fault: Option<Fault>,
}

/// A number that may be an array's length.
fn as_length(value: i64) -> Option<u32>
    ensures { result ≡ as_length value }
{
    if 1 <= value && value <= 65_536 {
        Some(value as u32)
    } else {
        None
    }
}

fn length_of(value: Option<i64>) -> Option<u32>
    ensures { result ≡ length_of value }
{
    as_length(value?)
}

fn is_bad_length(value: Option<i64>) -> bool
    ensures { result ≡ is_bad_length value }
{
    match value {
        None => false,
        Some(value) => as_length(value).is_none(),
    }
}

/// The array type of a length and an element type, where both are known.
fn array_if(
    alloc: Global,
    length: Option<u32>,
    element: Option<CType>,
) -> Result<Option<CType>, AllocError>
    ensures { IfOk result (λ made. option_map type_tree made ≡ array_of length (option_map type_tree element)) }
{
    match length {
        None => Ok(None),
        Some(length) => match element {
            None => Ok(None),
            Some(element) => Ok(Some(array_of(alloc, element, length)?)),
        },
    }
}

/// One more length before others.
fn with_length(
    alloc: Global,
    scope: &Scope,
    dim: &Expr,
    rest: Lengths,
) -> Result<Lengths, AllocError>
    ensures ctype { IfOk result (λ found. option_map type_tree found.ctype ≡ array_of (length_of (constant (scope_of scope.now) (expr_tree dim.now))) (option_map type_tree rest.ctype)) }
    ensures bad { IfOk result (λ found. found.bad ≡ (is_bad_length (constant (scope_of scope.now) (expr_tree dim.now)) || rest.bad)) }
    ensures fault { IfOk result (λ found. found.fault ≡ use_fault (scope_of scope.now) as_constant (expr_tree dim.now) or_earlier rest.fault) }
{
    let (value, fault) = check_constant(scope, dim);
    let ctype = array_if(alloc, length_of(value), rest.ctype)?;
    Ok(Lengths {
        ctype,
        bad: is_bad_length(value) || rest.bad,
        fault: earlier(fault, rest.fault),
    })
}

/// All lengths, the outermost first.
fn all_lengths(
    alloc: Global,
    scope: &Scope,
    base: Option<CType>,
    dims: &[Expr],
) -> Result<Lengths, AllocError>
    ensures ctype { IfOk result (λ found. option_map type_tree found.ctype ≡ declared_type (scope_of scope.now) (option_map type_tree base) (map expr_tree dims.now)) }
    ensures bad { IfOk result (λ found. found.bad ≡ any_bad (scope_of scope.now) (map expr_tree dims.now)) }
    ensures fault { IfOk result (λ found. found.fault ≡ dims_fault (scope_of scope.now) (map expr_tree dims.now)) }
{
    let mut found = Lengths {
        ctype: base,
        bad: false,
        fault: None,
    };
    let mut left = dims.len();
    while left > 0 {
        left -= 1;
        found = with_length(alloc, scope, &dims[left], found)?;
    }
    Ok(found)
}

/// Whether an object may have a type.
fn fits(ctype: &CType) -> bool
    ensures { result ≡ is_sized (type_tree ctype.now) }
{
    is_sized(ctype)
}

fn is_too_large(ctype: &Option<CType>) -> bool
    ensures { result ≡ is_too_large (option_map type_tree ctype.now) }
{
    match ctype {
        None => false,
        Some(ctype) => !fits(ctype),
    }
}

fn if_sized(ctype: Option<CType>) -> Option<CType>
    ensures { option_map type_tree result ≡ if_sized (option_map type_tree ctype) }
{
    let ctype = ctype?;
    if fits(&ctype) { Some(ctype) } else { None }
}

fn copy_base(base: &Option<CType>) -> Result<Option<CType>, AllocError>
    ensures { IfOk result (λ made. option_map type_tree made ≡ option_map type_tree base.now) }
{
    match base {
        None => Ok(None),
        Some(base) => Ok(Some(copy_type(base)?)),
    }
}

/// The type of an object whose name is declared at a place with these lengths, behind a type, and the first rule that is
/// broken there: M10, or what a length breaks. An `Err` is want of memory.
pub fn check_slot(
    alloc: Global,
    scope: &Scope,
    base: &Option<CType>,
    at: Span,
    dims: &[Expr],
) -> Result<Slot, AllocError>
    ensures ctype { IfOk result (λ slot. option_map type_tree slot.ctype ≡ object_type (scope_of scope.now) (option_map type_tree base.now) (map expr_tree dims.now)) }
    ensures fault { IfOk result (λ slot. slot.fault ≡ slot_fault (scope_of scope.now) (option_map type_tree base.now) at (map expr_tree dims.now)) }
{
    let found = all_lengths(alloc, scope, copy_base(base)?, dims)?;
    let broken = found.bad || (dims.len() > 3 || is_too_large(&found.ctype));
    Ok(Slot {
        fault: earlier(fault_if(broken, 10, at), found.fault),
        ctype: if_sized(found.ctype),
    })
}
