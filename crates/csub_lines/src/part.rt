//! The parts of statements (C11 6.8).
ghost use Rattle.std.specs.Prelude.{◌≡◌, ◌++◌, false, Some, IfOk, IsTrue, map, option_map};
ghost use Rattle.csub_objects.specs.Meaning.{type_tree};
ghost use Rattle.csub_scopes.specs.Meanings.{scope_of};
ghost use Rattle.csub_semantics.specs.Labels.{evaluates};
ghost use Rattle.csub_semantics.specs.Syntax.{call_at, in_part, part_tree};
ghost use Rattle.csub_semantics.specs.Trees.{expr_tree as value_tree};
ghost use Rattle.csub_tree.specs.Declarations.{init_tree};
ghost use Rattle.csub_tree.specs.Expressions.{expr_tree};
ghost use Rattle.csub_rules.specs.BrokenUse.{FineUse};
ghost use Rattle.csub_rules.specs.ExprSorts.{sort_of};
ghost use Rattle.csub_rules.specs.Fine.{Fine};
ghost use Rattle.csub_rules.specs.FineStmt.{FinePart};
ghost use Rattle.csub_rules.specs.Sorts.{is_number};
ghost use Rattle.csub_rules.specs.Uses.{as_number, as_part, as_statement, has_effect};
ghost use Rattle.csub_resolution.specs.Lines.{calls_in, effect_part, eval_part, exit_part, exits_with, for_test, own, return_part};
ghost use Rattle.csub_resolution.specs.Lines.{switch_part, test_part, third_parts, value};
ghost use Rattle.csub_resolution.specs.Positions.{first_token};
ghost use Rattle.csub_lines.specs.Numbers.{AreNumbers, part_of_object};

use crate::init::lower_init;
use csub_lower::{Known, exits_with, first_token, is_own_call, lower, lower_number};
use csub_nodes::part::{
    always_label, branch_label, calls_part, end_part, eval_label, halt_label, init_label, one_part,
    own_part, return_label, switch_label,
};
use csub_objects::CType;
use csub_rules::first_bytes;
use csub_semantics::{RCall, RExpr, RPart};
use csub_text::Span;
use csub_tree::{Expr, Init, Name};
use csub_types::IntKind;
use std::alloc::{AllocError, Global};

/// A number that stands first in its part, and the calls that are made before it.
#[derive(Drop)]
struct Number {
    calls: Vec<RCall>,
    value: Box<RExpr>,
}

/// The number that an expression stands for.
fn first_number(alloc: Global, known: Known, e: &Expr) -> Result<Number, AllocError>
    requires fine { Fine (scope_of known.scope.now) false (expr_tree e.now) }
    requires number { IsTrue (is_number (sort_of (scope_of known.scope.now) (expr_tree e.now))) }
    ensures calls { IfOk result (λ n. map call_at n.calls.items ≡ calls_in known.entry.definitions.now (scope_of known.entry.scope.now) (expr_tree e.now)) }
    ensures value { IfOk result (λ n. value_tree n.value.value ≡ value (scope_of known.entry.scope.now) (expr_tree e.now)) }
{
    let mut calls = Vec::new(alloc);
    let value = lower_number(alloc, known, e, &mut calls)?;
    Ok(Number { calls, value })
}

/// The part of an expression that is itself a call of one of the source's functions, which has no point of its own beside it
/// and stands at the expression's first token.
fn call_part(alloc: Global, known: Known, e: &Expr) -> Result<Box<RPart>, AllocError>
    requires { Fine (scope_of known.scope.now) false (expr_tree e.now) }
    ensures { IfOk result (λ part. part_tree part.value ≡ map (in_part (first_token (expr_tree e.now))) (calls_in known.entry.definitions.now (scope_of known.entry.scope.now) (expr_tree e.now))) }
{
    let mut calls = Vec::new(alloc);
    let _given = lower(alloc, known, e, &mut calls)?;
    calls_part(alloc, calls, first_token(e))
}

/// The part of another expression that is evaluated for its effects.
fn value_part(alloc: Global, known: Known, e: &Expr) -> Result<Box<RPart>, AllocError>
    requires fine { Fine (scope_of known.scope.now) false (expr_tree e.now) }
    requires number { IsTrue (is_number (sort_of (scope_of known.scope.now) (expr_tree e.now))) }
    ensures { IfOk result (λ part. part_tree part.value ≡ map (in_part (first_token (expr_tree e.now))) (calls_in known.entry.definitions.now (scope_of known.entry.scope.now) (expr_tree e.now)) ++ own (evaluates (value (scope_of known.entry.scope.now) (expr_tree e.now))) (first_token (expr_tree e.now))) }
{
    let number = first_number(alloc, known, e)?;
    let label = eval_label(alloc, number.value)?;
    own_part(alloc, number.calls, label, first_token(e))
}

/// The part of an expression that is evaluated for its effects. As for the others below, an `Err` is want of memory, or more
/// than 4,294,967,295 calls.
pub fn effect_part(alloc: Global, known: Known, e: &Expr) -> Result<Box<RPart>, AllocError>
    requires fine { Fine (scope_of known.scope.now) false (expr_tree e.now) }
    requires effect { IsTrue (has_effect (sort_of (scope_of known.scope.now) (expr_tree e.now))) }
    ensures { IfOk result (λ part. part_tree part.value ≡ effect_part known.entry.definitions.now (scope_of known.entry.scope.now) (expr_tree e.now)) }
{
    if is_own_call(known.scope, e) {
        call_part(alloc, known, e)
    } else {
        value_part(alloc, known, e)
    }
}

/// The part of an expression that is a call of `exit` with this argument.
fn exit_part(alloc: Global, known: Known, e: &Expr, status: &Expr) -> Result<Box<RPart>, AllocError>
    requires fine { Fine (scope_of known.scope.now) false (expr_tree status.now) }
    requires number { IsTrue (is_number (sort_of (scope_of known.scope.now) (expr_tree status.now))) }
    ensures { IfOk result (λ part. part_tree part.value ≡ exit_part known.entry.definitions.now (scope_of known.entry.scope.now) (expr_tree e.now) (expr_tree status.now)) }
{
    let number = first_number(alloc, known, status)?;
    let label = halt_label(alloc, number.value)?;
    own_part(alloc, number.calls, label, first_token(e))
}

/// The part of an expression statement, which may be a call of `exit`.
pub fn eval_part(alloc: Global, known: Known, e: &Expr) -> Result<Box<RPart>, AllocError>
    requires { FineUse (scope_of known.scope.now) as_statement (expr_tree e.now) }
    ensures { IfOk result (λ part. part_tree part.value ≡ eval_part known.entry.definitions.now (scope_of known.entry.scope.now) (expr_tree e.now) (exits_with (scope_of known.entry.scope.now) (expr_tree e.now))) }
{
    match exits_with(known.scope, e) {
        None => effect_part(alloc, known, e),
        Some(status) => exit_part(alloc, known, e, status),
    }
}

/// The part of the test of an `if` or a loop.
pub fn test_part(alloc: Global, known: Known, e: &Expr) -> Result<Box<RPart>, AllocError>
    requires { FineUse (scope_of known.scope.now) as_number (expr_tree e.now) }
    ensures { IfOk result (λ part. part_tree part.value ≡ test_part known.entry.definitions.now (scope_of known.entry.scope.now) (expr_tree e.now)) }
{
    let number = first_number(alloc, known, e)?;
    let label = branch_label(alloc, number.value)?;
    own_part(alloc, number.calls, label, first_token(e))
}

/// The part of the test of a `for` at a place; where it has none the test is 1 (C11 6.8.5.3p2).
pub fn for_test(
    alloc: Global,
    known: Known,
    span: Span,
    e: &Option<Expr>,
) -> Result<Box<RPart>, AllocError>
    requires { FinePart (scope_of known.scope.now) as_number (option_map expr_tree e.now) }
    ensures { IfOk result (λ part. part_tree part.value ≡ for_test known.entry.definitions.now (scope_of known.entry.scope.now) span (option_map expr_tree e.now)) }
{
    match e {
        None => own_part(
            alloc,
            Vec::new(alloc),
            always_label(alloc)?,
            first_bytes(3, span),
        ),
        Some(e) => test_part(alloc, known, e),
    }
}

/// The parts of the third part of a `for`: one, or none where it is left out.
pub fn third_parts(alloc: Global, known: Known, e: &Option<Expr>) -> Result<Vec<RPart>, AllocError>
    requires { FinePart (scope_of known.scope.now) as_part (option_map expr_tree e.now) }
    ensures { IfOk result (λ parts. map part_tree parts.items ≡ third_parts known.entry.definitions.now (scope_of known.entry.scope.now) (option_map expr_tree e.now)) }
{
    match e {
        None => Ok(Vec::new(alloc)),
        Some(e) => one_part(alloc, effect_part(alloc, known, e)?),
    }
}

/// The part of the expression of a `switch`.
pub fn switch_part(alloc: Global, known: Known, e: &Expr) -> Result<Box<RPart>, AllocError>
    requires { FineUse (scope_of known.scope.now) as_number (expr_tree e.now) }
    ensures { IfOk result (λ part. part_tree part.value ≡ switch_part known.entry.definitions.now (scope_of known.entry.scope.now) (expr_tree e.now)) }
{
    let number = first_number(alloc, known, e)?;
    let label = switch_label(alloc, number.value)?;
    own_part(alloc, number.calls, label, first_token(e))
}

/// The part of a `return` with a value.
fn answer_part(
    alloc: Global,
    known: Known,
    result_kind: Option<IntKind>,
    e: &Expr,
    span: Span,
) -> Result<Box<RPart>, AllocError>
    requires { FineUse (scope_of known.scope.now) as_number (expr_tree e.now) }
    ensures { IfOk result (λ part. part_tree part.value ≡ return_part known.entry.definitions.now result_kind (scope_of known.entry.scope.now) (Some (expr_tree e.now)) span) }
{
    let number = first_number(alloc, known, e)?;
    let label = return_label(alloc, result_kind, number.value)?;
    own_part(alloc, number.calls, label, first_bytes(6, span))
}

/// The part of a `return` at a place, in a function that gives this kind, or nothing.
pub fn return_part(
    alloc: Global,
    known: Known,
    result_kind: Option<IntKind>,
    e: &Option<Expr>,
    span: Span,
) -> Result<Box<RPart>, AllocError>
    requires { FinePart (scope_of known.scope.now) as_number (option_map expr_tree e.now) }
    ensures { IfOk result (λ part. part_tree part.value ≡ return_part known.entry.definitions.now result_kind (scope_of known.entry.scope.now) (option_map expr_tree e.now) span) }
{
    match e {
        None => end_part(alloc, span),
        Some(e) => answer_part(alloc, known, result_kind, e, span),
    }
}

/// The part of a declared object of a number and a type with this initialiser, which sees its name (C11 6.2.1p7).
pub(crate) fn init_part(
    alloc: Global,
    known: Known,
    name: &Name,
    number: u32,
    ctype: &CType,
    init: &Init,
) -> Result<Box<RPart>, AllocError>
    requires { AreNumbers (scope_of known.scope.now) (init_tree init.now) }
    ensures { IfOk result (λ part. part_tree part.value ≡ part_of_object known.entry.definitions.now (scope_of known.entry.scope.now) name.now number (type_tree ctype.now) (init_tree init.now)) }
{
    let mut calls = Vec::new(alloc);
    let value = lower_init(alloc, known, init, &mut calls)?;
    let label = init_label(alloc, name, number, ctype, value)?;
    own_part(alloc, calls, label, name.span)
}
