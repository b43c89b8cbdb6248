//! Constant expressions (C11 6.6).
ghost use Rattle.std.specs.Prelude.{◌≡◌, pos, Some, is_some, IfSome, not, option_map};
ghost use Rattle.csub_types.specs.Arithmetic.{IsRightOperand, unary_kind, binary_kind, operation_kind, right_operand};
ghost use Rattle.csub_types.specs.Kinds.{IsPromoted, common, convert, promote};
ghost use Rattle.csub_types.specs.Settled.{truth};
ghost use Rattle.csub_types.specs.declared.kind.IntKind.TheVariants.{Int};
ghost use Rattle.csub_scopes.specs.Meanings.{scope_of};
ghost use Rattle.csub_scopes.specs.Scopes.{find};
ghost use Rattle.csub_tree.specs.Expressions.{expr_tree};
ghost use Rattle.csub_rules.specs.Constants.{and_value, binary_value, choice_value, constant, constant_of_declared, constant_of_name, is_constant, is_zero, or_value, unary_value, untrapped, value_of};
ghost use Rattle.csub_rules.specs.ExprSorts.{named_kind, number_literal_kind, sort_of};
ghost use Rattle.csub_rules.specs.Sorts.{a_value};

use csub_rules::library::{LibraryName, library_name};
use csub_rules::{named_kind, number_literal_kind};
use csub_scopes::{Meaning, Scope};
use csub_text::{BinOp, UnaryOp};
use csub_tree::{Expr, ExprKind, TypeName};
use csub_types::{
    IntKind, Trap, binary, binary_kind, common, convert, operation_kind, promote, truth, unary,
    unary_kind,
};

/// The value of a declared name that is an enum constant (C11 6.4.4.3).
fn declared_constant(scope: &Scope, name: &[u8]) -> Option<i64>
    ensures { result ≡ constant_of_declared (find name.now scope.now.names) }
{
    match &scope.names.find(name)?.meaning {
        Meaning::Constant(value) => Some(*value),
        _ => None,
    }
}

/// The value of a name that is an enum constant, or `EOF`.
fn named_constant(scope: &Scope, name: &[u8]) -> Option<i64>
    ensures { result ≡ constant_of_name (scope_of scope.now) name.now }
{
    match library_name(name) {
        None => declared_constant(scope, name),
        Some(LibraryName::Eof) => Some(-1),
        Some(_) => None,
    }
}

/// The result of an operation, none where it traps.
fn untrapped(given: Result<i64, Trap>) -> Option<i64>
    ensures { result ≡ untrapped given }
{
    given.ok()
}

/// What `+`, `-`, `!` or `~` gives.
fn unary_value(op: UnaryOp, kind: IntKind, a: Option<i64>) -> Option<i64>
    requires { IsPromoted kind }
    ensures { result ≡ unary_value op kind a }
{
    untrapped(unary(op, kind, convert(kind, a?)))
}

/// The right operand of an operation: the count of a shift stays as it is (C11 6.5.7p3), another one is converted.
fn right_operand(op: BinOp, kind: IntKind, value: i64) -> i64
    ensures value { result ≡ right_operand op kind value }
    ensures serves { IsRightOperand op kind result }
{
    match op {
        BinOp::Shl | BinOp::Shr => value,
        _ => convert(kind, value),
    }
}

/// What an operator from `*` to `|` gives.
fn binary_value(op: BinOp, kind: IntKind, a: Option<i64>, b: Option<i64>) -> Option<i64>
    requires { IsPromoted kind }
    ensures { result ≡ binary_value op kind a b }
{
    let left = convert(kind, a?);
    let right = right_operand(op, kind, b?);
    untrapped(binary(op, kind, left, right))
}

/// 1 where a value isn't 0, else 0.
fn truth_of(value: Option<i64>) -> Option<i64>
    ensures { result ≡ option_map (λ v. truth (not (is_zero v))) value }
{
    Some(truth(value? != 0))
}

/// What `&&` gives, which needs the right operand only where the left one isn't 0 (C11 6.5.13p4).
fn and_value(a: Option<i64>, b: Option<i64>) -> Option<i64>
    ensures { result ≡ and_value a b }
{
    if a? == 0 { Some(0) } else { truth_of(b) }
}

/// What `||` gives, which needs the right operand only where the left one is 0 (C11 6.5.14p4).
fn or_value(a: Option<i64>, b: Option<i64>) -> Option<i64>
    ensures { result ≡ or_value a b }
{
    if a? == 0 { truth_of(b) } else { Some(1) }
}

/// A value, where there is one, converted to a kind.
fn converted(kind: IntKind, value: Option<i64>) -> Option<i64>
    ensures { result ≡ option_map (convert kind) value }
{
    Some(convert(kind, value?))
}

/// What `?:` gives, which needs one of the later operands (C11 6.5.15p4 and p5).
fn choice_value(kind: IntKind, c: Option<i64>, a: Option<i64>, b: Option<i64>) -> Option<i64>
    ensures { result ≡ choice_value kind c a b }
{
    if c? == 0 {
        converted(kind, b)
    } else {
        converted(kind, a)
    }
}

/// A constant expression: its kind, and its value where it doesn't trap.
#[derive(Clone, Copy)]
struct Found {
    kind: IntKind,
    value: Option<i64>,
}

/// A constant of the kind `int`.
fn int_found(value: Option<i64>) -> Found
    ensures kind { result.kind ≡ Int }
    ensures value { result.value ≡ value }
{
    Found {
        kind: IntKind::Int,
        value,
    }
}

/// A number as it is written (C11 6.4.4.1).
fn number_found(number: u32, suffix: bool) -> Found
    ensures kind { result.kind ≡ number_literal_kind number suffix }
    ensures value { result.value ≡ Some (pos number) }
{
    Found {
        kind: number_literal_kind(number, suffix),
        value: Some(i64::from(number)),
    }
}

fn unary_found(op: UnaryOp, a: Found) -> Found
    ensures kind { result.kind ≡ unary_kind op (promote a.kind) }
    ensures value { result.value ≡ unary_value op (promote a.kind) a.value }
{
    let kind = promote(a.kind);
    Found {
        kind: unary_kind(op, kind),
        value: unary_value(op, kind, a.value),
    }
}

fn cast_found(name: &TypeName, a: Found) -> Found
    ensures kind { result.kind ≡ named_kind name.now }
    ensures value { result.value ≡ option_map (convert (named_kind name.now)) a.value }
{
    let kind = named_kind(name);
    Found {
        kind,
        value: converted(kind, a.value),
    }
}

fn binary_found(op: BinOp, a: Found, b: Found) -> Found
    ensures kind { result.kind ≡ binary_kind op (operation_kind op a.kind b.kind) }
    ensures value { result.value ≡ binary_value op (operation_kind op a.kind b.kind) a.value b.value }
{
    let kind = operation_kind(op, a.kind, b.kind);
    Found {
        kind: binary_kind(op, kind),
        value: binary_value(op, kind, a.value, b.value),
    }
}

fn choice_found(c: Found, a: Found, b: Found) -> Found
    ensures kind { result.kind ≡ common a.kind b.kind }
    ensures value { result.value ≡ choice_value (common a.kind b.kind) c.value a.value b.value }
{
    let kind = common(a.kind, b.kind);
    Found {
        kind,
        value: choice_value(kind, c.value, a.value, b.value),
    }
}

/// The kind and the value of a constant expression; none where it is no such expression.
fn evaluate(scope: &Scope, e: &Expr) -> Option<Found>
    ensures exact { is_some result ≡ is_constant (scope_of scope.now) (expr_tree e.now) }
    ensures kind { IfSome result (λ found. sort_of (scope_of scope.now) (expr_tree e.now) ≡ a_value found.kind) }
    ensures value { IfSome result (λ found. found.value ≡ value_of (scope_of scope.now) (expr_tree e.now)) }
{
    match &e.kind {
        ExprKind::Number(n, suffix) => Some(number_found(*n, *suffix)),
        ExprKind::Char(byte) => Some(int_found(Some(i64::from(*byte)))),
        ExprKind::Name(x) => {
            let value = named_constant(scope, x.text.bytes())?;
            Some(int_found(Some(value)))
        }
        ExprKind::Paren(inner) => evaluate(scope, inner),
        ExprKind::Unary(op, a) => Some(unary_found(*op, evaluate(scope, a)?)),
        ExprKind::Cast(to, a) => Some(cast_found(to, evaluate(scope, a)?)),
        ExprKind::Binary(op, a, b) => {
            Some(binary_found(*op, evaluate(scope, a)?, evaluate(scope, b)?))
        }
        ExprKind::And(a, b) => {
            let (a, b) = (evaluate(scope, a)?, evaluate(scope, b)?);
            Some(int_found(and_value(a.value, b.value)))
        }
        ExprKind::Or(a, b) => {
            let (a, b) = (evaluate(scope, a)?, evaluate(scope, b)?);
            Some(int_found(or_value(a.value, b.value)))
        }
        ExprKind::Choose(c, a, b) => {
            let (c, a) = (evaluate(scope, c)?, evaluate(scope, a)?);
            Some(choice_found(c, a, evaluate(scope, b)?))
        }
        ExprKind::Text(_)
        | ExprKind::Step(_, _)
        | ExprKind::Assign(_, _, _)
        | ExprKind::Call(_, _)
        | ExprKind::Index(_, _)
        | ExprKind::Member(_, _) => None,
    }
}

/// The value of a constant expression, and none where an expression is none or traps (C11 6.6p4).
pub fn constant(scope: &Scope, e: &Expr) -> Option<i64>
    ensures { result ≡ constant (scope_of scope.now) (expr_tree e.now) }
{
    evaluate(scope, e)?.value
}
