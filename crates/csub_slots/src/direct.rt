//! What turns evaluate most, without a call: operations of a variable of the frame and a constant, and what is written to
//! such a variable. Each gives what [`crate::eval::eval`] gives.
ghost use Rattle.csub_types.specs.declared.kind.IntKind.TheVariants.{Int};
ghost use Rattle.csub_semantics.specs.Trees.{variable, constant, reading, operation, assignment, update};
ghost use Rattle.csub_semantics.specs.Evaluation.{eval};
ghost use Rattle.csub_slots.specs.Memory.{flat};
ghost use Rattle.csub_flat.specs.Seen.{local_seen, expr_seen};
ghost use Rattle.csub_slots.specs.Numbered.{narrowed};
ghost use Rattle.csub_slots.specs.States.{state_of, Gives, same, Keeps, FewValues};

use crate::eval::{compute, evaluate, fetch, operand, put, read_local, step};
use crate::registers::{Numbered, narrow};
use crate::spot::stand_local;
use crate::store::Store;
use csub_flat::{FlatConst, FlatExpr, FlatLocal, FlatPlace, FlatVariable};
use csub_semantics::{BinOp, IntKind, Trap};

/// What an operation in `int` of a variable of the frame at a base and a constant gives.
#[inline(always)]
fn int_by_const(
    store: &Store,
    base: u32,
    op: &BinOp,
    left: &FlatLocal,
    right: &FlatConst,
) -> Numbered<i64>
    ensures { Gives same (eval (flat base) (operation op.now Int (reading (variable (local_seen left.now))) (constant right.now.kind right.now.value)) (state_of store.now)) (narrowed result) (state_of store.now) }
{
    let value = read_local(store, base, *left)?;
    compute(*op, IntKind::Int, value, right.value)
}

/// What an assignment to a variable of the frame at a base gives.
#[inline(always)]
fn assign_directly(
    store: &mut Store,
    base: u32,
    local: &FlatLocal,
    inner: &FlatExpr,
) -> Numbered<i64>
    requires { FewValues (expr_seen inner.now) }
    ensures value { Gives same (eval (flat base) (assignment (variable (local_seen local.now)) (expr_seen inner.now)) (state_of store.old)) (narrowed result) (state_of store.new) }
    ensures kept { Keeps store.old store.new }
{
    let number = operand(store, base, inner)?;
    let spot = stand_local(base, *local);
    Ok(put(store, spot, number))
}

/// What a compound assignment in `int` to a variable of the frame at a base gives: it reads before its operand (C11
/// 6.5.16.2).
#[inline(always)]
fn update_directly(
    store: &mut Store,
    base: u32,
    local: FlatLocal,
    op: &BinOp,
    inner: &FlatExpr,
) -> Numbered<i64>
    requires { FewValues (expr_seen inner.now) }
    ensures value { Gives same (eval (flat base) (update (variable (local_seen local)) op.now Int (expr_seen inner.now)) (state_of store.old)) (narrowed result) (state_of store.new) }
    ensures kept { Keeps store.old store.new }
{
    let spot = stand_local(base, local);
    let before = fetch(store, spot)?;
    let number = operand(store, base, inner)?;
    let after = compute(*op, IntKind::Int, before, number)?;
    Ok(put(store, spot, after))
}

/// What an expression gives for the frame at a base, as a test or a `switch` asks for it (C11 6.5).
#[inline(always)]
pub fn eval_test(store: &mut Store, base: u32, expr: &FlatExpr) -> Result<i64, Trap>
    requires { FewValues (expr_seen expr.now) }
    ensures value { Gives same (eval (flat base) (expr_seen expr.now) (state_of store.old)) result (state_of store.new) }
    ensures kept { Keeps store.old store.new }
{
    let given = match expr {
        FlatExpr::BinaryLocalConst(op, IntKind::Int, left, right) => {
            int_by_const(store, base, op, left, right)
        }
        _ => operand(store, base, expr),
    };
    narrow(given)
}

/// What an expression that is a statement gives, or the number of its trap.
#[inline(always)]
fn evaluate_effect(store: &mut Store, base: u32, expr: &FlatExpr) -> Numbered<i64>
    requires { FewValues (expr_seen expr.now) }
    ensures value { Gives same (eval (flat base) (expr_seen expr.now) (state_of store.old)) (narrowed result) (state_of store.new) }
    ensures kept { Keeps store.old store.new }
{
    match expr {
        FlatExpr::AssignLocal(local, inner) => assign_directly(store, base, local, inner),
        FlatExpr::StepLocal(op, local) => step(store, *op, stand_local(base, *local)),
        FlatExpr::Update(
            FlatPlace::Variable(FlatVariable::Frame(slot, form)),
            op,
            IntKind::Int,
            inner,
        ) => {
            let local = FlatLocal {
                slot: *slot,
                form: *form,
            };
            update_directly(store, base, local, op, inner)
        }
        _ => evaluate(store, base, expr),
    }
}

/// What an expression that is a statement gives for the frame at a base.
#[inline(always)]
pub fn eval_effect(store: &mut Store, base: u32, expr: &FlatExpr) -> Result<i64, Trap>
    requires { FewValues (expr_seen expr.now) }
    ensures value { Gives same (eval (flat base) (expr_seen expr.now) (state_of store.old)) result (state_of store.new) }
    ensures kept { Keeps store.old store.new }
{
    let given = evaluate_effect(store, base, expr);
    narrow(given)
}
