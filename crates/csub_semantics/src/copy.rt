//! Copies of labels and of globals.
ghost use Rattle.std.specs.Prelude.{◌≡◌, IfOk, map};
ghost use Rattle.csub_objects.specs.Meaning.{member_tree};
ghost use Rattle.csub_semantics.specs.Types.{global_tree};
ghost use Rattle.csub_semantics.specs.Trees.{owner_tree, place_tree, expr_tree, arg_tree};
ghost use Rattle.csub_semantics.specs.Labels.{answer_tree, call_tree, init_tree, label_tree};

use crate::expression::{Owner, Piece, Place, RArg, RExpr};
use crate::label::{Answer, CallLabel, Label, RInit};
use crate::types::GlobalVar;
use csub_objects::{Member, copy_type};
use std::alloc::{AllocError, Global};

/// An equal label. An `Err` is want of memory.
pub fn copy_label(alloc: Global, label: &Label) -> Result<Label, AllocError>
    ensures { IfOk result (λ made. label_tree made ≡ label_tree label.now) }
{
    match label {
        Label::Entry => Ok(Label::Entry),
        Label::Exit(rule) => Ok(Label::Exit(*rule)),
        Label::Eval(expr) => Ok(Label::Eval(copy_expr(alloc, expr)?)),
        Label::Init(owner, ctype, init) => {
            let object = copy_owner(owner)?;
            let declared = copy_type(ctype)?;
            Ok(Label::Init(object, declared, copy_init(alloc, init)?))
        }
        Label::Branch(expr) => Ok(Label::Branch(copy_expr(alloc, expr)?)),
        Label::Switch(expr) => Ok(Label::Switch(copy_expr(alloc, expr)?)),
        Label::Goto => Ok(Label::Goto),
        Label::Halt(expr) => Ok(Label::Halt(copy_expr(alloc, expr)?)),
        Label::Return(None) => Ok(Label::Return(None)),
        Label::Return(Some(answer)) => Ok(Label::Return(Some(copy_answer(alloc, answer)?))),
        Label::Call(call) => Ok(Label::Call(copy_call(alloc, call)?)),
    }
}

/// An equal call. An `Err` is want of memory.
pub fn copy_call(alloc: Global, label: &CallLabel) -> Result<CallLabel, AllocError>
    ensures { IfOk result (λ made. call_tree made ≡ call_tree label.now) }
{
    Ok(CallLabel {
        callee: label.callee.copy()?,
        params: copy_members(alloc, &label.params)?,
        result: label.result,
        args: copy_args(alloc, &label.args)?,
        temp: label.temp,
    })
}

/// An equal object of file scope. An `Err` is want of memory.
pub fn copy_global(alloc: Global, global: &GlobalVar) -> Result<GlobalVar, AllocError>
    ensures { IfOk result (λ made. global_tree made ≡ global_tree global.now) }
{
    let name = global.name.copy()?;
    let ctype = copy_type(&global.ctype)?;
    let mut initial = Vec::new(alloc);
    initial.extend_from_slice(&global.initial)?;
    Ok(GlobalVar {
        name,
        ctype,
        initial,
    })
}

fn copy_answer(alloc: Global, answer: &Answer) -> Result<Answer, AllocError>
    ensures { IfOk result (λ made. answer_tree made ≡ answer_tree answer.now) }
{
    let value = copy_expr(alloc, &answer.value)?;
    Ok(Answer {
        kind: answer.kind,
        value,
    })
}

#[cycle(copying_init)]
fn copy_init(alloc: Global, init: &RInit) -> Result<RInit, AllocError>
    ensures { IfOk result (λ made. init_tree made ≡ init_tree init.now) }
{
    match init {
        RInit::One(value) => Ok(RInit::One(copy_expr(alloc, value)?)),
        RInit::List(entries) => Ok(RInit::List(copy_inits(alloc, entries)?)),
    }
}

#[cycle(copying_init)]
fn copy_inits(alloc: Global, entries: &[RInit]) -> Result<Vec<RInit>, AllocError>
    ensures { IfOk result (λ made. map init_tree made.items ≡ map init_tree entries.now) }
{
    let mut made = Vec::new(alloc);
    for entry in entries {
        made.push(copy_init(alloc, entry)?)?;
    }
    Ok(made)
}

fn copy_owner(owner: &Owner) -> Result<Owner, AllocError>
    ensures { IfOk result (λ made. owner_tree made ≡ owner_tree owner.now) }
{
    match owner {
        Owner::Global(name) => Ok(Owner::Global(name.copy()?)),
        Owner::Local(name, number) => Ok(Owner::Local(name.copy()?, *number)),
    }
}

/// An equal place. An `Err` is want of memory.
#[cycle(copying)]
pub fn copy_place(alloc: Global, place: &Place) -> Result<Place, AllocError>
    ensures { IfOk result (λ made. place_tree made ≡ place_tree place.now) }
{
    match place {
        Place::Var(owner, ctype) => {
            let object = copy_owner(owner)?;
            Ok(Place::Var(object, copy_type(ctype)?))
        }
        Place::Index(array, index) => {
            let new_array = copy_boxed_place(alloc, array)?;
            Ok(Place::Index(new_array, copy_boxed(alloc, index)?))
        }
        Place::Member(whole, name) => {
            let new_whole = copy_boxed_place(alloc, whole)?;
            Ok(Place::Member(new_whole, name.copy()?))
        }
    }
}

#[cycle(copying)]
fn copy_boxed_place(alloc: Global, place: &Place) -> Result<Box<Place>, AllocError>
    ensures { IfOk result (λ made. place_tree made.value ≡ place_tree place.now) }
{
    let made = copy_place(alloc, place)?;
    Ok(Box::new(alloc, made)?)
}

/// An equal expression. An `Err` is want of memory.
#[cycle(copying)]
pub fn copy_expr(alloc: Global, expr: &RExpr) -> Result<RExpr, AllocError>
    ensures { IfOk result (λ made. expr_tree made ≡ expr_tree expr.now) }
{
    match expr {
        RExpr::Const(kind, value) => Ok(RExpr::Const(*kind, *value)),
        RExpr::Getchar => Ok(RExpr::Getchar),
        RExpr::Putchar(byte) => Ok(RExpr::Putchar(copy_boxed(alloc, byte)?)),
        RExpr::Printf(pieces, values) => {
            let format = copy_pieces(alloc, pieces)?;
            Ok(RExpr::Printf(format, copy_exprs(alloc, values)?))
        }
        RExpr::Read(place) => Ok(RExpr::Read(copy_place(alloc, place)?)),
        RExpr::Temp(number, kind) => Ok(RExpr::Temp(*number, *kind)),
        RExpr::Step(op, place) => Ok(RExpr::Step(*op, copy_place(alloc, place)?)),
        RExpr::Assign(place, value) => {
            let target = copy_place(alloc, place)?;
            Ok(RExpr::Assign(target, copy_boxed(alloc, value)?))
        }
        RExpr::Update(place, op, kind, value) => {
            let target = copy_place(alloc, place)?;
            Ok(RExpr::Update(target, *op, *kind, copy_boxed(alloc, value)?))
        }
        RExpr::Unary(op, kind, operand) => {
            Ok(RExpr::Unary(*op, *kind, copy_boxed(alloc, operand)?))
        }
        RExpr::Cast(kind, operand) => Ok(RExpr::Cast(*kind, copy_boxed(alloc, operand)?)),
        RExpr::Binary(op, kind, left, right) => {
            let new_left = copy_boxed(alloc, left)?;
            Ok(RExpr::Binary(*op, *kind, new_left, copy_boxed(alloc, right)?))
        }
        RExpr::And(left, right) => {
            let new_left = copy_boxed(alloc, left)?;
            Ok(RExpr::And(new_left, copy_boxed(alloc, right)?))
        }
        RExpr::Or(left, right) => {
            let new_left = copy_boxed(alloc, left)?;
            Ok(RExpr::Or(new_left, copy_boxed(alloc, right)?))
        }
        RExpr::Choose(kind, test, left, right) => {
            let new_test = copy_boxed(alloc, test)?;
            let new_left = copy_boxed(alloc, left)?;
            Ok(RExpr::Choose(*kind, new_test, new_left, copy_boxed(alloc, right)?))
        }
    }
}

#[cycle(copying)]
fn copy_exprs(alloc: Global, exprs: &[RExpr]) -> Result<Vec<RExpr>, AllocError>
    ensures { IfOk result (λ made. map expr_tree made.items ≡ map expr_tree exprs.now) }
{
    let mut made = Vec::new(alloc);
    for expr in exprs {
        made.push(copy_expr(alloc, expr)?)?;
    }
    Ok(made)
}

#[cycle(copying)]
fn copy_boxed(alloc: Global, expr: &RExpr) -> Result<Box<RExpr>, AllocError>
    ensures { IfOk result (λ made. expr_tree made.value ≡ expr_tree expr.now) }
{
    let made = copy_expr(alloc, expr)?;
    Ok(Box::new(alloc, made)?)
}

fn copy_pieces(alloc: Global, pieces: &[Piece]) -> Result<Vec<Piece>, AllocError>
    ensures { IfOk result (λ made. made.items ≡ pieces.now) }
{
    let mut made = Vec::new(alloc);
    made.extend_from_slice(pieces)?;
    Ok(made)
}

fn copy_args(alloc: Global, args: &[RArg]) -> Result<Vec<RArg>, AllocError>
    ensures { IfOk result (λ made. map arg_tree made.items ≡ map arg_tree args.now) }
{
    let mut made = Vec::new(alloc);
    for arg in args {
        made.push(copy_arg(alloc, arg)?)?;
    }
    Ok(made)
}

fn copy_arg(alloc: Global, arg: &RArg) -> Result<RArg, AllocError>
    ensures { IfOk result (λ made. arg_tree made ≡ arg_tree arg.now) }
{
    match arg {
        RArg::Value(expr) => Ok(RArg::Value(copy_expr(alloc, expr)?)),
        RArg::Array(place) => Ok(RArg::Array(copy_place(alloc, place)?)),
    }
}

fn copy_members(alloc: Global, members: &[Member]) -> Result<Vec<Member>, AllocError>
    ensures { IfOk result (λ made. map member_tree made.items ≡ map member_tree members.now) }
{
    let mut made = Vec::new(alloc);
    for member in members {
        let name = member.name.copy()?;
        let ctype = copy_type(&member.ctype)?;
        made.push(Member { name, ctype })?;
    }
    Ok(made)
}
