//! The forms of expressions that programs have most, made from the flat copies of their parts.
ghost use Rattle.std.specs.Prelude.{◌≡◌, IfSome};
ghost use Rattle.csub_semantics.specs.Trees.{variable, constant, reading, stepping, operation, assignment};
ghost use Rattle.csub_flat.specs.Seen.{local_seen, place_seen, expr_seen};

use crate::flat::{FlatConst, FlatExpr, FlatLocal, FlatPlace, FlatVariable};
use csub_semantics::{BinOp, IntKind, StepOp};

/// The variable of the frame that a place is, if it is one.
fn local_at(place: &FlatPlace) -> Option<FlatLocal>
    ensures { IfSome result (λ local. place_seen place.now ≡ variable (local_seen local)) }
{
    match place {
        FlatPlace::Variable(FlatVariable::Frame(slot, form)) => Some(FlatLocal {
            slot: *slot,
            form: *form,
        }),
        _ => None,
    }
}

/// The variable of the frame that an expression reads, if it does no more.
fn local_read(expr: &FlatExpr) -> Option<FlatLocal>
    ensures { IfSome result (λ local. expr_seen expr.now ≡ reading (variable (local_seen local))) }
{
    match expr {
        FlatExpr::Local(local) => Some(*local),
        _ => None,
    }
}

/// The constant that an expression is, if it is one.
fn constant_in(expr: &FlatExpr) -> Option<FlatConst>
    ensures { IfSome result (λ fixed. expr_seen expr.now ≡ constant fixed.kind fixed.value) }
{
    match expr {
        FlatExpr::Const(kind, value) => Some(FlatConst {
            kind: *kind,
            value: *value,
        }),
        _ => None,
    }
}

/// The number in a place.
pub fn read_of(place: FlatPlace) -> FlatExpr
    ensures { expr_seen result ≡ reading (place_seen place) }
{
    match local_at(&place) {
        Some(local) => FlatExpr::Local(local),
        None => FlatExpr::Read(place),
    }
}

/// `++` or `--` of a place.
pub fn step_of(op: StepOp, place: FlatPlace) -> FlatExpr
    ensures { expr_seen result ≡ stepping op (place_seen place) }
{
    match local_at(&place) {
        Some(local) => FlatExpr::StepLocal(op, local),
        None => FlatExpr::Step(op, place),
    }
}

/// An assignment to a place.
pub fn assign_of(place: FlatPlace, value: Box<FlatExpr>) -> FlatExpr
    ensures { expr_seen result ≡ assignment (place_seen place) (expr_seen value.value) }
{
    match local_at(&place) {
        Some(local) => FlatExpr::AssignLocal(local, value),
        None => FlatExpr::Assign(place, value),
    }
}

/// A binary operation.
pub fn binary_of(op: BinOp, kind: IntKind, left: Box<FlatExpr>, right: Box<FlatExpr>) -> FlatExpr
    ensures { expr_seen result ≡ operation op kind (expr_seen left.value) (expr_seen right.value) }
{
    match local_read(&left) {
        Some(local) => local_binary(op, kind, local, right),
        None => other_binary(op, kind, left, right),
    }
}

/// A binary operation of a variable of the frame.
fn local_binary(op: BinOp, kind: IntKind, left: FlatLocal, right: Box<FlatExpr>) -> FlatExpr
    ensures { expr_seen result ≡ operation op kind (reading (variable (local_seen left))) (expr_seen right.value) }
{
    match constant_in(&right) {
        Some(fixed) => FlatExpr::BinaryLocalConst(op, kind, left, fixed),
        None => FlatExpr::BinaryLocal(op, kind, left, right),
    }
}

/// A binary operation of any expressions.
fn other_binary(op: BinOp, kind: IntKind, left: Box<FlatExpr>, right: Box<FlatExpr>) -> FlatExpr
    ensures { expr_seen result ≡ operation op kind (expr_seen left.value) (expr_seen right.value) }
{
    match constant_in(&right) {
        Some(fixed) => FlatExpr::BinaryConst(op, kind, left, fixed),
        None => FlatExpr::Binary(op, kind, left, right),
    }
}
