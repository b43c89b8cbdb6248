//! What expressions give, over slots. Nothing here takes memory.
//!
//! [`evaluate`] chooses by the form of an expression, and what has locals in memory is a function of its own: a function
//! clears all of its locals whenever it is called, whichever of its cases it comes to. Operators and kinds go to these by
//! reference, since a copy of a small enum would be such a local.
ghost use Rattle.std.specs.Prelude.{◌≡◌, ◌≤◌, [], length, map, All, IfSome, slice_set, Ok};
ghost use Rattle.csub_types.specs.Kinds.{promote, convert};
ghost use Rattle.csub_types.specs.Arithmetic.{unary, binary, right_operand};
ghost use Rattle.csub_semantics.specs.Trees.{variable, element_place, constant, reading, unary_operation, stepping, operation, assignment, output_byte, formatted, exprs_of};
ghost use Rattle.csub_semantics.specs.Memory.{value, then_do, get_byte};
ghost use Rattle.csub_semantics.specs.Evaluation as the;
ghost use Rattle.csub_semantics.specs.Evaluation.{is_nonzero, locate, eval, eval_all, fetch, computed, indexed};
ghost use Rattle.csub_slots.specs.Layout as layout;
ghost use Rattle.csub_slots.specs.Memory.{flat, spots};
ghost use Rattle.csub_flat.specs.Seen.{variable_seen, local_seen, part_seen, place_seen, expr_seen};
ghost use Rattle.csub_slots.specs.Seen.{slot_seen, spot_seen};
ghost use Rattle.csub_slots.specs.Numbered.{narrowed};
ghost use Rattle.csub_slots.specs.States.{state_of, Gives, same, Keeps, FewAtPlace, FewValues};

use crate::output::{write_format, write_low};
use crate::registers::{Numbered, narrow, narrow_spot, number_of, widen};
use crate::slot::{Slot, set_slot, slot_at};
use crate::spot::{Spot, element, member, stand, stand_local};
use crate::store::Store;
use arrayvec::ArrayVec;
use csub_flat::{FlatConst, FlatExpr, FlatLocal, FlatPart, FlatPlace, FlatVariable};
use csub_semantics::{BinOp, IntKind, Piece, StepOp, Trap, UnaryOp};
use csub_types::arithmetic::{binary, unary};
use csub_types::kind::{convert, promote};

/// The most values of a `printf`.
const MOST_VALUES: usize = 8;

/// An operation in a kind, to which its operands are converted first.
#[inline(always)]
pub fn compute(op: BinOp, kind: IntKind, left: i64, right: i64) -> Numbered<i64>
    ensures { narrowed result ≡ binary op (promote kind) (convert (promote kind) left) (right_operand op (promote kind) right) }
{
    let promoted = promote(kind);
    let operand = match op {
        BinOp::Shl | BinOp::Shr => right,
        _ => convert(promoted, right),
    };
    widen(binary(op, promoted, convert(promoted, left), operand))
}

/// The same of one operand.
#[inline(always)]
fn compute_unary(op: UnaryOp, kind: IntKind, operand: i64) -> Numbered<i64>
    ensures { narrowed result ≡ unary op (promote kind) (convert (promote kind) operand) }
{
    let promoted = promote(kind);
    widen(unary(op, promoted, convert(promoted, operand)))
}

/// A slot gets a content.
#[inline(always)]
pub fn put_slot(store: &mut Store, at: usize, slot: Slot)
    ensures value { state_of store.new ≡ record (state_of store.old) { cells = slice_set (map slot_seen store.old.slots.items) at (slot_seen slot) } }
    ensures kept { Keeps store.old store.new }
{
    set_slot(store.slots.as_mut_slice(), at, slot);
}

/// A number goes into a slot.
#[inline(always)]
pub fn put_at(store: &mut Store, at: usize, value: i64)
    ensures value { state_of store.new ≡ record (state_of store.old) { cells = slice_set (map slot_seen store.old.slots.items) at (layout.holding value) } }
    ensures kept { Keeps store.old store.new }
{
    put_slot(store, at, Slot::Holding(value));
}

/// The next byte of the input, or -1 at its end (C11 7.21.7.6).
fn next_byte(store: &mut Store) -> i64
    ensures value { get_byte (state_of store.old) (state_of store.old).input ≡ value result (state_of store.new) }
    ensures kept { Keeps store.old store.new }
{
    if store.place < store.input.len() {
        let byte = store.input[store.place];
        store.place += 1;
        i64::from(byte)
    } else {
        -1
    }
}

/// The number at a spot, in the kind that is declared there; one that was never written is the trap `unset`.
#[inline(always)]
pub fn fetch(store: &Store, spot: Spot) -> Numbered<i64>
    ensures { Gives same (fetch spots (spot_seen spot) (state_of store.now)) (narrowed result) (state_of store.now) }
{
    match slot_at(store.slots.as_slice(), spot.slot) {
        Slot::Holding(value) => Ok(convert(spot.form.kind, value)),
        Slot::Empty | Slot::Referring(_, _) => Err(number_of(Trap::Unset)),
    }
}

/// A number goes to a spot, converted to the kind that is declared there, and is given so.
#[inline(always)]
pub fn put(store: &mut Store, spot: Spot, number: i64) -> i64
    ensures value { Gives same (the.store spots (spot_seen spot) number (state_of store.old)) (Ok result) (state_of store.new) }
    ensures kept { Keeps store.old store.new }
{
    let stored = convert(spot.form.kind, number);
    put_at(store, spot.slot, stored);
    stored
}

/// What `++` and `--` give at a spot (C11 6.5.2.4 and 6.5.3.1).
#[inline(always)]
pub fn step(store: &mut Store, op: StepOp, spot: Spot) -> Numbered<i64>
    ensures value { Gives same (the.step spots op (spot_seen spot) (state_of store.old)) (narrowed result) (state_of store.new) }
    ensures kept { Keeps store.old store.new }
{
    let before = fetch(store, spot)?;
    let by = match op {
        StepOp::PreUp | StepOp::PostUp => 1,
        StepOp::PreDown | StepOp::PostDown => -1,
    };
    let value = compute(BinOp::Add, spot.form.kind, before, by)?;
    let after = put(store, spot, value);
    match op {
        StepOp::PreUp | StepOp::PreDown => Ok(after),
        StepOp::PostUp | StepOp::PostDown => Ok(before),
    }
}

/// The number that a variable holds for the frame at a base, or the number of its trap.
#[inline(always)]
fn read_variable(store: &Store, base: u32, named: FlatVariable) -> Numbered<i64>
    ensures { Gives same (eval (flat base) (reading (variable (variable_seen named))) (state_of store.now)) (narrowed result) (state_of store.now) }
{
    let spot = stand(store.slots.as_slice(), base, named)?;
    fetch(store, spot)
}

/// The number that a variable of the frame at a base holds.
#[inline(always)]
pub fn read_local(store: &Store, base: u32, local: FlatLocal) -> Numbered<i64>
    ensures { Gives same (eval (flat base) (reading (variable (local_seen local))) (state_of store.now)) (narrowed result) (state_of store.now) }
{
    let spot = stand_local(base, local);
    fetch(store, spot)
}

/// What `++` and `--` give at a variable of the frame at a base.
#[inline(never)]
fn step_local(store: &mut Store, base: u32, op: &StepOp, local: &FlatLocal) -> Numbered<i64>
    ensures value { Gives same (eval (flat base) (stepping op.now (variable (local_seen local.now))) (state_of store.old)) (narrowed result) (state_of store.new) }
    ensures kept { Keeps store.old store.new }
{
    let spot = stand_local(base, *local);
    step(store, *op, spot)
}

/// What a binary operation of a variable of the frame at a base and a constant gives.
#[inline(never)]
fn eval_local_const(
    store: &Store,
    base: u32,
    op: &BinOp,
    kind: &IntKind,
    left: &FlatLocal,
    right: &FlatConst,
) -> Numbered<i64>
    ensures { Gives same (eval (flat base) (operation op.now kind.now (reading (variable (local_seen left.now))) (constant right.now.kind right.now.value)) (state_of store.now)) (narrowed result) (state_of store.now) }
{
    let value = read_local(store, base, *left)?;
    compute(*op, *kind, value, right.value)
}

/// The number that a variable holds for the frame at a base (C11 6.5.1).
#[inline(never)]
pub fn eval_variable(store: &Store, base: u32, named: FlatVariable) -> Result<i64, Trap>
    ensures { Gives same (eval (flat base) (reading (variable (variable_seen named))) (state_of store.now)) result (state_of store.now) }
{
    narrow(read_variable(store, base, named))
}

/// Where a place is for the frame at a base; an index comes behind the place that it stands on.
#[inline(never)]
pub fn locate(store: &mut Store, base: u32, place: &FlatPlace) -> Result<Spot, Trap>
    requires { FewAtPlace (place_seen place.now) }
    ensures value { Gives spot_seen (locate (flat base) (place_seen place.now) (state_of store.old)) result (state_of store.new) }
    ensures kept { Keeps store.old store.new }
{
    let found = find(store, base, place);
    narrow_spot(found)
}

/// What an expression gives for the frame at a base (C11 6.5).
#[inline(always)]
pub fn eval(store: &mut Store, base: u32, expr: &FlatExpr) -> Result<i64, Trap>
    requires { FewValues (expr_seen expr.now) }
    ensures value { Gives same (eval (flat base) (expr_seen expr.now) (state_of store.old)) result (state_of store.new) }
    ensures kept { Keeps store.old store.new }
{
    let given = evaluate(store, base, expr);
    narrow(given)
}

/// The same, where a constant and a variable need no call.
#[inline(always)]
pub fn eval_operand(store: &mut Store, base: u32, expr: &FlatExpr) -> Result<i64, Trap>
    requires { FewValues (expr_seen expr.now) }
    ensures value { Gives same (eval (flat base) (expr_seen expr.now) (state_of store.old)) result (state_of store.new) }
    ensures kept { Keeps store.old store.new }
{
    let given = operand(store, base, expr);
    narrow(given)
}

/// The variable that a place is, if it is one.
#[inline(always)]
fn variable_in(place: &FlatPlace) -> Option<&FlatVariable>
    ensures { IfSome result (λ named. place_seen place.now ≡ variable (variable_seen named.now)) }
{
    match place {
        FlatPlace::Variable(named) => Some(named),
        _ => None,
    }
}

/// Where a place is, or the number of its trap.
#[cycle(expressions)]
#[inline(never)]
fn find(store: &mut Store, base: u32, place: &FlatPlace) -> Numbered<Spot>
    requires { FewAtPlace (place_seen place.now) }
    ensures value { Gives spot_seen (locate (flat base) (place_seen place.now) (state_of store.old)) (narrowed result) (state_of store.new) }
    ensures kept { Keeps store.old store.new }
{
    match place {
        FlatPlace::Variable(named) => stand(store.slots.as_slice(), base, *named),
        FlatPlace::Element(part, array, index) => {
            let spot = find_near(store, base, array)?;
            find_element(store, base, *part, spot, index)
        }
        FlatPlace::Member(part, whole) => {
            let spot = find_near(store, base, whole)?;
            Ok(member(*part, spot))
        }
    }
}

/// Where a place is, as [`find`] says; a variable and an element of one need no call.
#[cycle(expressions)]
#[inline(always)]
fn find_near(store: &mut Store, base: u32, place: &FlatPlace) -> Numbered<Spot>
    requires { FewAtPlace (place_seen place.now) }
    ensures value { Gives spot_seen (locate (flat base) (place_seen place.now) (state_of store.old)) (narrowed result) (state_of store.new) }
    ensures kept { Keeps store.old store.new }
{
    match place {
        FlatPlace::Variable(named) => stand(store.slots.as_slice(), base, *named),
        FlatPlace::Element(part, array, index) => match variable_in(array) {
            Some(named) => find_in(store, base, *part, *named, index),
            None => find(store, base, place),
        },
        FlatPlace::Member(_, _) => find(store, base, place),
    }
}

/// Where an element of an array that is a variable is, by its index.
#[cycle(expressions)]
#[inline(always)]
fn find_in(
    store: &mut Store,
    base: u32,
    part: FlatPart,
    named: FlatVariable,
    index: &FlatExpr,
) -> Numbered<Spot>
    requires { FewValues (expr_seen index.now) }
    ensures value { Gives spot_seen (locate (flat base) (element_place (part_seen part) (variable (variable_seen named)) (expr_seen index.now)) (state_of store.old)) (narrowed result) (state_of store.new) }
    ensures kept { Keeps store.old store.new }
{
    let array = stand(store.slots.as_slice(), base, named)?;
    find_element(store, base, part, array, index)
}

/// Where an element of the array at a spot is, by its index.
#[cycle(expressions)]
#[inline(always)]
fn find_element(
    store: &mut Store,
    base: u32,
    part: FlatPart,
    spot: Spot,
    index: &FlatExpr,
) -> Numbered<Spot>
    requires { FewValues (expr_seen index.now) }
    ensures value { Gives spot_seen (then_do (eval (flat base) (expr_seen index.now) (state_of store.old)) (indexed (flat base) (part_seen part) (spot_seen spot))) (narrowed result) (state_of store.new) }
    ensures kept { Keeps store.old store.new }
{
    let value = operand(store, base, index)?;
    element(part, spot, value)
}

/// What an expression gives, or the number of its trap. What programs have most is asked for first, without the locals of
/// all that [`evaluate_any`] does.
#[cycle(expressions)]
#[inline(never)]
pub fn evaluate(store: &mut Store, base: u32, expr: &FlatExpr) -> Numbered<i64>
    requires { FewValues (expr_seen expr.now) }
    ensures value { Gives same (eval (flat base) (expr_seen expr.now) (state_of store.old)) (narrowed result) (state_of store.new) }
    ensures kept { Keeps store.old store.new }
{
    match expr {
        FlatExpr::Read(place) => eval_read(store, base, place),
        FlatExpr::Local(local) => read_local(store, base, *local),
        FlatExpr::StepLocal(op, local) => step_local(store, base, op, local),
        FlatExpr::AssignLocal(local, inner) => assign_local(store, base, local, inner),
        FlatExpr::BinaryConst(op, kind, left, right) => {
            eval_with_const(store, base, op, kind, left, right)
        }
        FlatExpr::BinaryLocal(op, kind, left, right) => {
            eval_on_local(store, base, op, kind, left, right)
        }
        FlatExpr::BinaryLocalConst(op, kind, left, right) => {
            eval_local_const(store, base, op, kind, left, right)
        }
        _ => evaluate_any(store, base, expr),
    }
}

/// What any expression gives, as [`evaluate`] says.
#[cycle(expressions)]
#[inline(never)]
fn evaluate_any(store: &mut Store, base: u32, expr: &FlatExpr) -> Numbered<i64>
    requires { FewValues (expr_seen expr.now) }
    ensures value { Gives same (eval (flat base) (expr_seen expr.now) (state_of store.old)) (narrowed result) (state_of store.new) }
    ensures kept { Keeps store.old store.new }
{
    match expr {
        FlatExpr::Const(_, value) => Ok(*value),
        FlatExpr::Read(place) => eval_read(store, base, place),
        FlatExpr::Unary(op, kind, inner) => eval_unary(store, base, op, kind, inner),
        FlatExpr::Cast(kind, inner) => eval_as(store, base, kind, inner),
        FlatExpr::Step(op, place) => eval_step(store, base, op, place),
        FlatExpr::Binary(op, kind, left, right) => {
            let a = operand(store, base, left)?;
            eval_right(store, base, op, kind, a, right)
        }
        FlatExpr::And(left, right) => match operand(store, base, left)? {
            0 => Ok(0),
            _ => eval_truth(store, base, right),
        },
        FlatExpr::Or(left, right) => match operand(store, base, left)? {
            0 => eval_truth(store, base, right),
            _ => Ok(1),
        },
        FlatExpr::Choose(kind, test, left, right) => match operand(store, base, test)? {
            0 => eval_as(store, base, kind, right),
            _ => eval_as(store, base, kind, left),
        },
        FlatExpr::Assign(place, inner) => {
            let spot = find_near(store, base, place)?;
            assign(store, base, &spot, inner)
        }
        FlatExpr::Update(place, op, kind, inner) => {
            let spot = find_near(store, base, place)?;
            update(store, base, &spot, op, kind, inner)
        }
        FlatExpr::Getchar => Ok(next_byte(store)),
        FlatExpr::Putchar(inner) => eval_putchar(store, base, inner),
        FlatExpr::Printf(pieces, exprs) => eval_format(store, base, pieces, exprs),
        FlatExpr::Local(local) => read_local(store, base, *local),
        FlatExpr::StepLocal(op, local) => step_local(store, base, op, local),
        FlatExpr::AssignLocal(local, inner) => assign_local(store, base, local, inner),
        FlatExpr::BinaryConst(op, kind, left, right) => {
            eval_with_const(store, base, op, kind, left, right)
        }
        FlatExpr::BinaryLocal(op, kind, left, right) => {
            eval_on_local(store, base, op, kind, left, right)
        }
        FlatExpr::BinaryLocalConst(op, kind, left, right) => {
            eval_local_const(store, base, op, kind, left, right)
        }
    }
}

/// What an expression gives, as [`evaluate`] says; a constant and a variable need no call.
#[cycle(expressions)]
#[inline(always)]
pub fn operand(store: &mut Store, base: u32, expr: &FlatExpr) -> Numbered<i64>
    requires { FewValues (expr_seen expr.now) }
    ensures value { Gives same (eval (flat base) (expr_seen expr.now) (state_of store.old)) (narrowed result) (state_of store.new) }
    ensures kept { Keeps store.old store.new }
{
    match expr {
        FlatExpr::Const(_, value) => Ok(*value),
        FlatExpr::Local(local) => read_local(store, base, *local),
        FlatExpr::Read(FlatPlace::Variable(named)) => read_variable(store, base, *named),
        _ => evaluate(store, base, expr),
    }
}

/// The number in a place.
#[cycle(expressions)]
#[inline(never)]
fn eval_read(store: &mut Store, base: u32, place: &FlatPlace) -> Numbered<i64>
    requires { FewAtPlace (place_seen place.now) }
    ensures value { Gives same (eval (flat base) (reading (place_seen place.now)) (state_of store.old)) (narrowed result) (state_of store.new) }
    ensures kept { Keeps store.old store.new }
{
    let spot = find_near(store, base, place)?;
    fetch(store, spot)
}

/// What a unary operation gives.
#[cycle(expressions)]
#[inline(never)]
fn eval_unary(
    store: &mut Store,
    base: u32,
    op: &UnaryOp,
    kind: &IntKind,
    inner: &FlatExpr,
) -> Numbered<i64>
    requires { FewValues (expr_seen inner.now) }
    ensures value { Gives same (eval (flat base) (unary_operation op.now kind.now (expr_seen inner.now)) (state_of store.old)) (narrowed result) (state_of store.new) }
    ensures kept { Keeps store.old store.new }
{
    let value = operand(store, base, inner)?;
    compute_unary(*op, *kind, value)
}

/// What `++` and `--` give at a place.
#[cycle(expressions)]
#[inline(never)]
fn eval_step(store: &mut Store, base: u32, op: &StepOp, place: &FlatPlace) -> Numbered<i64>
    requires { FewAtPlace (place_seen place.now) }
    ensures value { Gives same (eval (flat base) (stepping op.now (place_seen place.now)) (state_of store.old)) (narrowed result) (state_of store.new) }
    ensures kept { Keeps store.old store.new }
{
    let spot = find_near(store, base, place)?;
    step(store, *op, spot)
}

/// What a binary operation gives by its left operand's number and its right operand.
#[cycle(expressions)]
#[inline(never)]
fn eval_right(
    store: &mut Store,
    base: u32,
    op: &BinOp,
    kind: &IntKind,
    left: i64,
    right: &FlatExpr,
) -> Numbered<i64>
    requires { FewValues (expr_seen right.now) }
    ensures value { Gives same (then_do (eval (flat base) (expr_seen right.now) (state_of store.old)) (computed op.now kind.now left)) (narrowed result) (state_of store.new) }
    ensures kept { Keeps store.old store.new }
{
    let value = operand(store, base, right)?;
    compute(*op, *kind, left, value)
}

/// What a binary operation of an expression and a constant gives.
#[cycle(expressions)]
#[inline(never)]
fn eval_with_const(
    store: &mut Store,
    base: u32,
    op: &BinOp,
    kind: &IntKind,
    left: &FlatExpr,
    right: &FlatConst,
) -> Numbered<i64>
    requires { FewValues (expr_seen left.now) }
    ensures value { Gives same (eval (flat base) (operation op.now kind.now (expr_seen left.now) (constant right.now.kind right.now.value)) (state_of store.old)) (narrowed result) (state_of store.new) }
    ensures kept { Keeps store.old store.new }
{
    let value = operand(store, base, left)?;
    compute(*op, *kind, value, right.value)
}

/// What a binary operation of a variable of the frame at a base and an expression gives.
#[cycle(expressions)]
#[inline(never)]
fn eval_on_local(
    store: &mut Store,
    base: u32,
    op: &BinOp,
    kind: &IntKind,
    left: &FlatLocal,
    right: &FlatExpr,
) -> Numbered<i64>
    requires { FewValues (expr_seen right.now) }
    ensures value { Gives same (eval (flat base) (operation op.now kind.now (reading (variable (local_seen left.now))) (expr_seen right.now)) (state_of store.old)) (narrowed result) (state_of store.new) }
    ensures kept { Keeps store.old store.new }
{
    let before = read_local(store, base, *left)?;
    let value = operand(store, base, right)?;
    compute(*op, *kind, before, value)
}

/// What an assignment to a variable of the frame at a base gives.
#[cycle(expressions)]
#[inline(never)]
fn assign_local(store: &mut Store, base: u32, local: &FlatLocal, inner: &FlatExpr) -> Numbered<i64>
    requires { FewValues (expr_seen inner.now) }
    ensures value { Gives same (eval (flat base) (assignment (variable (local_seen local.now)) (expr_seen inner.now)) (state_of store.old)) (narrowed result) (state_of store.new) }
    ensures kept { Keeps store.old store.new }
{
    let number = operand(store, base, inner)?;
    let spot = stand_local(base, *local);
    Ok(put(store, spot, number))
}

/// What an assignment to a spot gives.
#[cycle(expressions)]
#[inline(never)]
fn assign(store: &mut Store, base: u32, spot: &Spot, inner: &FlatExpr) -> Numbered<i64>
    requires { FewValues (expr_seen inner.now) }
    ensures value { Gives same (then_do (eval (flat base) (expr_seen inner.now) (state_of store.old)) (the.store (flat base) (spot_seen spot.now))) (narrowed result) (state_of store.new) }
    ensures kept { Keeps store.old store.new }
{
    let number = operand(store, base, inner)?;
    Ok(put(store, *spot, number))
}

/// What a compound assignment to a spot gives: it reads before its operand (C11 6.5.16.2).
#[cycle(expressions)]
#[inline(never)]
fn update(
    store: &mut Store,
    base: u32,
    spot: &Spot,
    op: &BinOp,
    kind: &IntKind,
    inner: &FlatExpr,
) -> Numbered<i64>
    requires { FewValues (expr_seen inner.now) }
    ensures value { Gives same (then_do (fetch (flat base) (spot_seen spot.now) (state_of store.old)) (λ v u. then_do (eval (flat base) (expr_seen inner.now) u) (λ w x. then_do (computed op.now kind.now v w x) (the.store (flat base) (spot_seen spot.now))))) (narrowed result) (state_of store.new) }
    ensures kept { Keeps store.old store.new }
{
    let before = fetch(store, *spot)?;
    let number = operand(store, base, inner)?;
    let after = compute(*op, *kind, before, number)?;
    Ok(put(store, *spot, after))
}

/// What `putchar` gives.
#[cycle(expressions)]
#[inline(never)]
fn eval_putchar(store: &mut Store, base: u32, inner: &FlatExpr) -> Numbered<i64>
    requires { FewValues (expr_seen inner.now) }
    ensures value { Gives same (eval (flat base) (output_byte (expr_seen inner.now)) (state_of store.old)) (narrowed result) (state_of store.new) }
    ensures kept { Keeps store.old store.new }
{
    let value = operand(store, base, inner)?;
    let given = write_low(store, value);
    widen(given)
}

/// What `printf` gives: it evaluates all its values, and then writes (C11 7.21.6.3).
#[cycle(expressions)]
#[inline(never)]
fn eval_format(store: &mut Store, base: u32, pieces: &[Piece], exprs: &[FlatExpr]) -> Numbered<i64>
    requires few { length exprs.now ≤ 8 }
    requires each { All FewValues (map expr_seen exprs.now) }
    ensures value { Gives same (eval (flat base) (formatted pieces.now (exprs_of (map expr_seen exprs.now))) (state_of store.old)) (narrowed result) (state_of store.new) }
    ensures kept { Keeps store.old store.new }
{
    let mut values = ArrayVec::new();
    eval_values(store, base, exprs, &mut values)?;
    let given = write_format(store, pieces, values.as_slice());
    widen(given)
}

/// What expressions give, from left to right.
#[cycle(expressions)]
fn eval_values(
    store: &mut Store,
    base: u32,
    exprs: &[FlatExpr],
    values: &mut ArrayVec<i64, MOST_VALUES>,
) -> Numbered<()>
    requires few { length exprs.now ≤ 8 }
    requires empty { values.old.items ≡ [] }
    requires each { All FewValues (map expr_seen exprs.now) }
    ensures value { Gives (λ _. values.new.items) (eval_all (flat base) (exprs_of (map expr_seen exprs.now)) (state_of store.old)) (narrowed result) (state_of store.new) }
    ensures kept { Keeps store.old store.new }
{
    for expr in exprs {
        values.push(operand(store, base, expr)?);
    }
    Ok(())
}

/// What an expression gives, converted to a kind.
#[cycle(expressions)]
#[inline(never)]
fn eval_as(store: &mut Store, base: u32, kind: &IntKind, expr: &FlatExpr) -> Numbered<i64>
    requires { FewValues (expr_seen expr.now) }
    ensures value { Gives same (then_do (eval (flat base) (expr_seen expr.now) (state_of store.old)) (λ w u. value (convert kind.now w) u)) (narrowed result) (state_of store.new) }
    ensures kept { Keeps store.old store.new }
{
    let value = operand(store, base, expr)?;
    Ok(convert(*kind, value))
}

/// Whether what an expression gives isn't 0, as 1 or 0.
#[cycle(expressions)]
#[inline(never)]
fn eval_truth(store: &mut Store, base: u32, expr: &FlatExpr) -> Numbered<i64>
    requires { FewValues (expr_seen expr.now) }
    ensures value { Gives same (then_do (eval (flat base) (expr_seen expr.now) (state_of store.old)) (λ w u. value (is_nonzero w) u)) (narrowed result) (state_of store.new) }
    ensures kept { Keeps store.old store.new }
{
    let value = operand(store, base, expr)?;
    Ok(i64::from(value != 0))
}
