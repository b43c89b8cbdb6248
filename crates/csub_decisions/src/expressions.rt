//! Whether expressions have the kinds that C states, and name what is declared.
ghost use Rattle.std.specs.Prelude.{◌≡◌, ◌↔◌, All, IsTrue, map};
ghost use Rattle.csub_types.specs.Kinds.{IsOf, promote, common};
ghost use Rattle.csub_semantics.specs.Trees.{place_tree, expr_tree, temporary};
ghost use Rattle.csub_semantics.specs.Syntax.{part_tree};
ghost use Rattle.csub_types.specs.Arithmetic.{unary_kind, binary_kind, operation_kind};
ghost use Rattle.csub_validity.specs.Valid.{IsExpr, IsPlace, IsVariable, result_of, stage_result, place_kind, kind_of};
ghost use Rattle.std.specs.Option.{option_map};
ghost use Rattle.csub_semantics.specs.Labels.{label_tree};
ghost use Rattle.csub_decisions.specs.Checks.{scope_at, own_result};

use crate::formats::is_format;
use crate::objects::is_object;
use crate::places::{is_number_place, place_kind};
use crate::site::Site;
use csub_semantics::{Label, Place, RExpr, RPart};
use csub_text::BinOp;
use csub_types::{IntKind, binary_kind, common, convert, operation_kind, promote, unary_kind};

/// Whether an expression at a stage of a part is valid: every constant is a number of its kind, every operation has the
/// kind that its operator and operands state (C11 6.5.3.3, 6.5.5 to 6.5.15 and 6.5.16.2p3), every name is that of an
/// object of the function, and every temporary holds the result of an earlier stage.
///
/// This takes a pass over the expression, with a comparison of names for each use of an object and object of the
/// function. It takes no memory.
#[cycle(expressions)]
pub fn is_expr(site: Site<'_>, expr: &RExpr) -> bool
    ensures { IsTrue result ↔ IsExpr (scope_at site.entry) site.entry.number (expr_tree expr.now) }
{
    match expr {
        RExpr::Const(kind, value) => is_of(*kind, *value),
        RExpr::Read(place) => is_number_place(place) && is_place(site, place),
        RExpr::Temp(temp, kind) => is_temp(site, *temp, *kind),
        RExpr::Step(_, place) => is_number_place(place) && is_place(site, place),
        RExpr::Getchar => true,
        RExpr::Putchar(byte) => is_expr(site, byte),
        RExpr::Printf(pieces, values) => { is_format(pieces, values) && are_exprs(site, values) }
        RExpr::Unary(_, kind, operand) => {
            *kind == promote(kind_of(operand)) && is_expr(site, operand)
        }
        RExpr::Cast(_, operand) => is_expr(site, operand),
        RExpr::Binary(op, kind, left, right) => {
            is_operation(*op, *kind, left, right) && is_expr(site, left) && is_expr(site, right)
        }
        RExpr::And(left, right) => is_expr(site, left) && is_expr(site, right),
        RExpr::Or(left, right) => is_expr(site, left) && is_expr(site, right),
        RExpr::Choose(kind, test, left, right) => {
            is_choice(*kind, left, right)
                && is_expr(site, test)
                && is_expr(site, left)
                && is_expr(site, right)
        }
        RExpr::Assign(place, value) => {
            is_number_place(place) && is_place(site, place) && is_expr(site, value)
        }
        RExpr::Update(place, op, kind, value) => {
            is_update(*op, *kind, place, value)
                && is_number_place(place)
                && is_place(site, place)
                && is_expr(site, value)
        }
    }
}

/// Whether each of the expressions is valid.
#[cycle(expressions)]
fn are_exprs(site: Site<'_>, exprs: &[RExpr]) -> bool
    ensures { IsTrue result ↔ All (λ e. IsExpr (scope_at site.entry) site.entry.number (expr_tree e)) exprs.now }
{
    for expr in exprs {
        if !is_expr(site, expr) {
            return false;
        }
    }
    true
}

/// Whether a place is in an object of the function or of file scope, with the type that it is declared with, and its
/// indices are valid expressions.
#[cycle(expressions)]
pub fn is_place(site: Site<'_>, place: &Place) -> bool
    ensures { IsTrue result ↔ IsPlace (scope_at site.entry) site.entry.number (place_tree place.now) }
{
    match place {
        Place::Var(owner, ctype) => is_object(site, owner, ctype),
        Place::Index(array, index) => is_place(site, array) && is_expr(site, index),
        Place::Member(whole, _) => is_place(site, whole),
    }
}

/// Whether a `?:` has the common kind of its later operands (C11 6.5.15p5).
fn is_choice(kind: IntKind, left: &RExpr, right: &RExpr) -> bool
    ensures { IsTrue result ↔ (kind ≡ common (kind_of (expr_tree left.now)) (kind_of (expr_tree right.now))) }
{
    kind == common(kind_of(left), kind_of(right))
}

/// Whether a kind has a number: exactly then it is converted to itself.
pub fn is_of(kind: IntKind, value: i64) -> bool
    ensures { IsTrue result ↔ IsOf kind value }
{
    convert(kind, value) == value
}

/// Whether an operation has the kind that its operator and its operands' kinds state.
fn is_operation(op: BinOp, kind: IntKind, left: &RExpr, right: &RExpr) -> bool
    ensures { IsTrue result ↔ (kind ≡ operation_kind op (kind_of (expr_tree left.now)) (kind_of (expr_tree right.now))) }
{
    kind == operation_kind(op, kind_of(left), kind_of(right))
}

/// The kind of an expression's value.
pub fn kind_of(expr: &RExpr) -> IntKind
    ensures { result ≡ kind_of (expr_tree expr.now) }
{
    match expr {
        RExpr::Const(kind, _) => *kind,
        RExpr::Getchar => IntKind::Int,
        RExpr::Putchar(_) => IntKind::Int,
        RExpr::Printf(_, _) => IntKind::Int,
        RExpr::Read(place) => place_kind(place),
        RExpr::Temp(_, kind) => *kind,
        RExpr::Step(_, place) => place_kind(place),
        RExpr::Unary(op, kind, _) => unary_kind(*op, *kind),
        RExpr::Cast(kind, _) => *kind,
        RExpr::Binary(op, kind, _, _) => binary_kind(*op, *kind),
        RExpr::And(_, _) => IntKind::Int,
        RExpr::Or(_, _) => IntKind::Int,
        RExpr::Choose(kind, _, _, _) => *kind,
        RExpr::Assign(place, _) => place_kind(place),
        RExpr::Update(place, _, _, _) => place_kind(place),
    }
}

/// Whether a temporary holds the result of an earlier stage than the `number`-th of a part.
fn is_temp(site: Site<'_>, temp: u32, kind: IntKind) -> bool
    ensures { IsTrue result ↔ IsVariable (scope_at site.entry) site.entry.number (temporary temp kind) }
{
    (temp as usize) < site.number && stage_result(site.part, temp) == Some(kind)
}

/// The kind of the result of a part's call with a number from 1.
fn stage_result(part: &RPart, temp: u32) -> Option<IntKind>
    ensures { result ≡ result_of (map stage_result (part_tree part.now)) temp }
{
    let index = (temp as usize).checked_sub(1)?;
    let calls = part.calls.as_slice();
    if index < calls.len() {
        calls[index].label.result
    } else if index == calls.len() {
        own_result(&part.main)
    } else {
        None
    }
}

/// The kind of the result of a part's own point, where that is a call.
fn own_result(main: &Option<Label>) -> Option<IntKind>
    ensures { result ≡ own_result (option_map label_tree main.now) }
{
    match main {
        Some(Label::Call(call)) => call.result,
        _ => None,
    }
}

/// Whether a compound assignment has the kind of its operation (C11 6.5.16.2p3).
fn is_update(op: BinOp, kind: IntKind, place: &Place, value: &RExpr) -> bool
    ensures { IsTrue result ↔ (kind ≡ operation_kind op (place_kind (place_tree place.now)) (kind_of (expr_tree value.now))) }
{
    kind == operation_kind(op, place_kind(place), kind_of(value))
}
