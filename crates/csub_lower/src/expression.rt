//! The second pass over an expression.
ghost use Rattle.std.specs.Prelude.{◌≡◌, ◌+◌, ◌++◌, false, IfOk, OnOk, IsTrue, length, map};
ghost use Rattle.csub_tree.specs.Expressions.{Call, Node, expr_tree, exprs_of};
ghost use Rattle.csub_objects.specs.Meaning.{type_tree};
ghost use Rattle.csub_scopes.specs.Meanings.{scope_of};
ghost use Rattle.csub_semantics.specs.Trees.{arg_tree, expr_tree as value_tree};
ghost use Rattle.csub_semantics.specs.Syntax.{call_at};
ghost use Rattle.csub_rules.specs.Sorts.{is_number};
ghost use Rattle.csub_rules.specs.Callees.{take_all};
ghost use Rattle.csub_rules.specs.ExprSorts.{sort_of, sorts_of};
ghost use Rattle.csub_rules.specs.Fine.{Fine, FineKind, FineNumbers};
ghost use Rattle.csub_resolution.specs.Values.{arguments, calls_in, calls_in_all, calls_in_kind, count, count_all, count_kind, value};
ghost use Rattle.csub_lower.specs.Calls.{FineEach, value_list};
ghost use Rattle.csub_lower.specs.Made.{IsMade, IsNumber};

use crate::argument::{call_args, fitting_args, next_type, output_arg, printed_args};
use crate::call::make_call;
use crate::format::format_of;
use crate::known::Known;
use crate::made::{Made, Number, to_argument, to_number};
use crate::name::name;
use crate::node::{
    and_node, assign_node, binary_node, cast_node, choice_node, constant_node, formatted_node,
    index_node, input_node, literal_node, member_node, or_node, output_node, step_node, unary_node,
};
use csub_objects::CType;
use csub_rules::{Callee, callee_of};
use csub_semantics::{RArg, RCall, RExpr};
use csub_tree::{Expr, ExprKind, Name};
use csub_types::IntKind;
use std::alloc::{AllocError, Global};

/// What an expression that breaks no rule stands for (C11 6.5): its place or its value, with its type or its kind. The
/// calls of the source's functions that are made before it are appended, the innermost and the leftmost first. It takes
/// time in proportion to the expression. An `Err` is want of memory, or more than 4,294,967,295 calls; what was appended
/// then means nothing.
#[cycle(lower)]
pub fn lower<'t>(
    alloc: Global,
    known: Known<'t>,
    e: &Expr,
    made: &mut Vec<RCall>,
) -> Result<Made<'t>, AllocError>
    requires { Fine (scope_of known.scope.now) false (expr_tree e.now) }
    ensures made { IfOk result (λ m. IsMade (scope_of known.entry.scope.now) (length made.old.items) (expr_tree e.now) m) }
    ensures calls { OnOk result (map call_at made.new.items ≡ map call_at made.old.items ++ calls_in known.entry.definitions.now (scope_of known.entry.scope.now) (length made.old.items) (expr_tree e.now)) }
    ensures count { OnOk result (length made.new.items ≡ length made.old.items + count (scope_of known.entry.scope.now) (expr_tree e.now)) }
{
    match &e.kind {
        ExprKind::Number(n, suffix) => literal_node(alloc, *n, *suffix),
        ExprKind::Char(byte) => constant_node(alloc, IntKind::Int, i64::from(*byte)),
        ExprKind::Text(_) => unreachable!(),
        ExprKind::Name(x) => name(alloc, known.scope, x),
        ExprKind::Paren(inner) => lower(alloc, known, inner, made),
        ExprKind::Unary(op, a) => unary_node(alloc, *op, number_of(alloc, known, a, made)?),
        ExprKind::Cast(to, a) => cast_node(alloc, to, number_of(alloc, known, a, made)?),
        ExprKind::Step(op, a) => step_node(alloc, *op, lower(alloc, known, a, made)?),
        ExprKind::Binary(op, a, b) => {
            let (a, b) = two_numbers(alloc, known, a, b, made)?;
            binary_node(alloc, *op, a, b)
        }
        ExprKind::And(a, b) => {
            let (a, b) = two_numbers(alloc, known, a, b, made)?;
            and_node(alloc, a, b)
        }
        ExprKind::Or(a, b) => {
            let (a, b) = two_numbers(alloc, known, a, b, made)?;
            or_node(alloc, a, b)
        }
        ExprKind::Choose(c, a, b) => {
            let c = number_of(alloc, known, c, made)?;
            let (a, b) = two_numbers(alloc, known, a, b, made)?;
            choice_node(alloc, c, a, b)
        }
        ExprKind::Assign(op, a, b) => {
            let (a, b) = made_and_number(alloc, known, a, b, made)?;
            assign_node(alloc, *op, a, b)
        }
        ExprKind::Call(f, args) => call(alloc, known, f, call_args(known.scope, f, args), made),
        ExprKind::Index(a, i) => {
            let (a, i) = made_and_number(alloc, known, a, i, made)?;
            index_node(alloc, a, i)
        }
        ExprKind::Member(a, m) => member_node(alloc, lower(alloc, known, a, made)?, m),
    }
}

/// A number that an expression stands for, with its kind; for the calls, and the time, see `lower`.
#[cycle(lower)]
fn number_of(
    alloc: Global,
    known: Known,
    e: &Expr,
    made: &mut Vec<RCall>,
) -> Result<Number, AllocError>
    requires fine { Fine (scope_of known.scope.now) false (expr_tree e.now) }
    requires number { IsTrue (is_number (sort_of (scope_of known.scope.now) (expr_tree e.now))) }
    ensures number { IfOk result (λ n. IsNumber (scope_of known.entry.scope.now) (length made.old.items) (expr_tree e.now) n) }
    ensures calls { OnOk result (map call_at made.new.items ≡ map call_at made.old.items ++ calls_in known.entry.definitions.now (scope_of known.entry.scope.now) (length made.old.items) (expr_tree e.now)) }
    ensures count { OnOk result (length made.new.items ≡ length made.old.items + count (scope_of known.entry.scope.now) (expr_tree e.now)) }
{
    to_number(alloc, lower(alloc, known, e, made)?)
}

/// The numbers that two expressions stand for, with the calls of the first before those of the second; see `lower`.
#[cycle(lower)]
fn two_numbers(
    alloc: Global,
    known: Known,
    a: &Expr,
    b: &Expr,
    made: &mut Vec<RCall>,
) -> Result<(Number, Number), AllocError>
    requires first { Fine (scope_of known.scope.now) false (expr_tree a.now) }
    requires second { Fine (scope_of known.scope.now) false (expr_tree b.now) }
    requires first_number { IsTrue (is_number (sort_of (scope_of known.scope.now) (expr_tree a.now))) }
    requires second_number { IsTrue (is_number (sort_of (scope_of known.scope.now) (expr_tree b.now))) }
    ensures first { IfOk result (λ p. IsNumber (scope_of known.entry.scope.now) (length made.old.items) (expr_tree a.now) p.0) }
    ensures second { IfOk result (λ p. IsNumber (scope_of known.entry.scope.now) (length made.old.items + count (scope_of known.entry.scope.now) (expr_tree a.now)) (expr_tree b.now) p.1) }
    ensures calls { OnOk result (map call_at made.new.items ≡ map call_at made.old.items ++ (calls_in known.entry.definitions.now (scope_of known.entry.scope.now) (length made.old.items) (expr_tree a.now)
        ++ calls_in known.entry.definitions.now (scope_of known.entry.scope.now) (length made.old.items + count (scope_of known.entry.scope.now) (expr_tree a.now)) (expr_tree b.now))) }
    ensures count { OnOk result (length made.new.items ≡ length made.old.items + (count (scope_of known.entry.scope.now) (expr_tree a.now) + count (scope_of known.entry.scope.now) (expr_tree b.now))) }
{
    let a = number_of(alloc, known, a, made)?;
    let b = number_of(alloc, known, b, made)?;
    Ok((a, b))
}

/// What an expression and a number behind it stand for, with the calls of the first before those of the second; see
/// `lower`.
#[cycle(lower)]
fn made_and_number<'t>(
    alloc: Global,
    known: Known<'t>,
    a: &Expr,
    b: &Expr,
    made: &mut Vec<RCall>,
) -> Result<(Made<'t>, Number), AllocError>
    requires first { Fine (scope_of known.scope.now) false (expr_tree a.now) }
    requires second { Fine (scope_of known.scope.now) false (expr_tree b.now) }
    requires second_number { IsTrue (is_number (sort_of (scope_of known.scope.now) (expr_tree b.now))) }
    ensures first { IfOk result (λ p. IsMade (scope_of known.entry.scope.now) (length made.old.items) (expr_tree a.now) p.0) }
    ensures second { IfOk result (λ p. IsNumber (scope_of known.entry.scope.now) (length made.old.items + count (scope_of known.entry.scope.now) (expr_tree a.now)) (expr_tree b.now) p.1) }
    ensures calls { OnOk result (map call_at made.new.items ≡ map call_at made.old.items ++ (calls_in known.entry.definitions.now (scope_of known.entry.scope.now) (length made.old.items) (expr_tree a.now)
        ++ calls_in known.entry.definitions.now (scope_of known.entry.scope.now) (length made.old.items + count (scope_of known.entry.scope.now) (expr_tree a.now)) (expr_tree b.now))) }
    ensures count { OnOk result (length made.new.items ≡ length made.old.items + (count (scope_of known.entry.scope.now) (expr_tree a.now) + count (scope_of known.entry.scope.now) (expr_tree b.now))) }
{
    let a = lower(alloc, known, a, made)?;
    let b = number_of(alloc, known, b, made)?;
    Ok((a, b))
}

/// What a call that breaks no rule stands for; see `lower`.
#[cycle(lower)]
fn call<'t>(
    alloc: Global,
    known: Known<'t>,
    f: &Name,
    args: &[Expr],
    made: &mut Vec<RCall>,
) -> Result<Made<'t>, AllocError>
    requires { FineKind (scope_of known.scope.now) false (Call f.now (exprs_of (map expr_tree args.now))) }
    ensures made { IfOk result (λ m. IsMade (scope_of known.entry.scope.now) (length made.old.items) (Node (Call f.now (exprs_of (map expr_tree args.now))) f.now.span) m) }
    ensures calls { OnOk result (map call_at made.new.items ≡ map call_at made.old.items ++ calls_in_kind known.entry.definitions.now (scope_of known.entry.scope.now) (length made.old.items) (Call f.now (exprs_of (map expr_tree args.now)))) }
    ensures count { OnOk result (length made.new.items ≡ length made.old.items + count_kind (scope_of known.entry.scope.now) (Call f.now (exprs_of (map expr_tree args.now)))) }
{
    match callee_of(known.scope, f.text.bytes()) {
        Callee::Unknown => unreachable!(),
        Callee::User(signature) => {
            let (args, types) = fitting_args(known.scope, f, args, signature);
            let values = arguments(alloc, known, args, types, made)?;
            make_call(alloc, known.definitions, f, values, signature.result, made)
        }
        Callee::Getchar => input_node(alloc),
        Callee::Putchar => {
            let args = output_arg(known.scope, f, args);
            output_node(alloc, numbers(alloc, known, args, made)?)
        }
        Callee::Printf => {
            let pieces = format_of(alloc, args)?;
            let args = printed_args(known.scope, f, args);
            formatted_node(alloc, pieces, numbers(alloc, known, args, made)?)
        }
        Callee::Exit => unreachable!(),
    }
}

/// The arguments of a call for parameters of these types; see `lower`.
#[cycle(lower)]
fn arguments(
    alloc: Global,
    known: Known,
    args: &[Expr],
    types: &[CType],
    made: &mut Vec<RCall>,
) -> Result<Vec<RArg>, AllocError>
    requires fine { FineEach (scope_of known.scope.now) (exprs_of (map expr_tree args.now)) }
    requires taken { IsTrue (take_all (map type_tree types.now) (sorts_of (scope_of known.scope.now) (exprs_of (map expr_tree args.now)))) }
    ensures args { IfOk result (λ v. map arg_tree v.items ≡ arguments (scope_of known.entry.scope.now) (length made.old.items) (map type_tree types.now) (exprs_of (map expr_tree args.now))) }
    ensures calls { OnOk result (map call_at made.new.items ≡ map call_at made.old.items ++ calls_in_all known.entry.definitions.now (scope_of known.entry.scope.now) (length made.old.items) (exprs_of (map expr_tree args.now))) }
    ensures count { OnOk result (length made.new.items ≡ length made.old.items + count_all (scope_of known.entry.scope.now) (exprs_of (map expr_tree args.now))) }
{
    let mut values = Vec::new(alloc);
    let mut rest = types;
    for arg in args {
        let found = lower(alloc, known, arg, made)?;
        let (ctype, later) = next_type(rest);
        values.push(to_argument(alloc, found, ctype)?)?;
        rest = later;
    }
    Ok(values)
}

/// The values of arguments that are numbers; see `lower`.
#[cycle(lower)]
fn numbers(
    alloc: Global,
    known: Known,
    args: &[Expr],
    made: &mut Vec<RCall>,
) -> Result<Vec<RExpr>, AllocError>
    requires { FineNumbers (scope_of known.scope.now) (exprs_of (map expr_tree args.now)) }
    ensures values { IfOk result (λ v. map value_tree v.items ≡ value_list (scope_of known.entry.scope.now) (length made.old.items) (exprs_of (map expr_tree args.now))) }
    ensures calls { OnOk result (map call_at made.new.items ≡ map call_at made.old.items ++ calls_in_all known.entry.definitions.now (scope_of known.entry.scope.now) (length made.old.items) (exprs_of (map expr_tree args.now))) }
    ensures count { OnOk result (length made.new.items ≡ length made.old.items + count_all (scope_of known.entry.scope.now) (exprs_of (map expr_tree args.now))) }
{
    let mut values = Vec::new(alloc);
    for arg in args {
        let number = number_of(alloc, known, arg, made)?;
        values.push(Box::into_inner(number.value))?;
    }
    Ok(values)
}

/// The value of a number that an expression stands for, which breaks no rule; for the calls, the time and the errors see
/// [`lower`].
pub fn lower_number(
    alloc: Global,
    known: Known,
    e: &Expr,
    made: &mut Vec<RCall>,
) -> Result<Box<RExpr>, AllocError>
    requires fine { Fine (scope_of known.scope.now) false (expr_tree e.now) }
    requires number { IsTrue (is_number (sort_of (scope_of known.scope.now) (expr_tree e.now))) }
    ensures value { IfOk result (λ v. value_tree v.value ≡ value (scope_of known.entry.scope.now) (length made.old.items) (expr_tree e.now)) }
    ensures calls { OnOk result (map call_at made.new.items ≡ map call_at made.old.items ++ calls_in known.entry.definitions.now (scope_of known.entry.scope.now) (length made.old.items) (expr_tree e.now)) }
    ensures count { OnOk result (length made.new.items ≡ length made.old.items + count (scope_of known.entry.scope.now) (expr_tree e.now)) }
{
    Ok(number_of(alloc, known, e, made)?.value)
}
