//! The types that a label writes beside names.
ghost use Rattle.std.specs.Prelude.{◌≡◌, ◌++◌, ◌∷◌, [], IfOk, OnOk, map};
ghost use Rattle.std.specs.List.{flat_map};
ghost use Rattle.csub_semantics.specs.Trees.{place_tree, expr_tree, exprs_of, arg_tree};
ghost use Rattle.csub_semantics.specs.Labels.{init_tree, inits_of, label_tree};
ghost use Rattle.label_code.specs.Uses.{place_uses, expr_uses, exprs_uses, arg_uses, init_uses, inits_uses, label_uses, use_tree};

use csub_semantics::{CType, CallLabel, Label, Owner, Place, RArg, RExpr, RInit};
use std::alloc::{AllocError, Global};

/// A name with the type that is written beside it.
#[derive(Clone, Copy)]
pub enum TypeUse<'a> {
    /// An object and its type.
    Object(&'a Owner, &'a CType),
    /// A callee and its parameters.
    Callee(&'a CallLabel),
}

/// The names in a label with their types, from left to right. An `Err` is want of memory.
pub fn uses_of<'a>(alloc: Global, label: &'a Label) -> Result<Vec<TypeUse<'a>>, AllocError>
    ensures { IfOk result (λ uses. map use_tree uses.items ≡ label_uses (label_tree label.now)) }
{
    let mut uses = Vec::new(alloc);
    add_label(&mut uses, label)?;
    Ok(uses)
}

fn add_label<'a>(uses: &mut Vec<TypeUse<'a>>, label: &'a Label) -> Result<(), AllocError>
    ensures { OnOk result (map use_tree uses.new.items ≡ map use_tree uses.old.items ++ label_uses (label_tree label.now)) }
{
    match label {
        Label::Entry | Label::Exit(_) | Label::Return(None) | Label::Goto => Ok(()),
        Label::Eval(expr) | Label::Branch(expr) | Label::Switch(expr) | Label::Halt(expr) => {
            add_expr(uses, expr)
        }
        Label::Return(Some(answer)) => add_expr(uses, &answer.value),
        Label::Call(call) => {
            add_use(uses, TypeUse::Callee(call))?;
            add_args(uses, &call.args)
        }
        Label::Init(owner, ctype, init) => {
            add_use(uses, TypeUse::Object(owner, ctype))?;
            add_init(uses, init)
        }
    }
}

fn add_use<'a>(uses: &mut Vec<TypeUse<'a>>, used: TypeUse<'a>) -> Result<(), AllocError>
    ensures { OnOk result (map use_tree uses.new.items ≡ map use_tree uses.old.items ++ use_tree used.entry ∷ []) }
{
    Ok(uses.push(used)?)
}

#[cycle(initialisers)]
fn add_init<'a>(uses: &mut Vec<TypeUse<'a>>, init: &'a RInit) -> Result<(), AllocError>
    ensures { OnOk result (map use_tree uses.new.items ≡ map use_tree uses.old.items ++ init_uses (init_tree init.now)) }
{
    match init {
        RInit::One(value) => add_expr(uses, value),
        RInit::List(entries) => add_inits(uses, entries),
    }
}

#[cycle(initialisers)]
fn add_inits<'a>(uses: &mut Vec<TypeUse<'a>>, entries: &'a [RInit]) -> Result<(), AllocError>
    ensures { OnOk result (map use_tree uses.new.items ≡ map use_tree uses.old.items ++ inits_uses (inits_of (map init_tree entries.now))) }
{
    for entry in entries {
        add_init(uses, entry)?;
    }
    Ok(())
}

fn add_args<'a>(uses: &mut Vec<TypeUse<'a>>, args: &'a [RArg]) -> Result<(), AllocError>
    ensures { OnOk result (map use_tree uses.new.items ≡ map use_tree uses.old.items ++ flat_map arg_uses (map arg_tree args.now)) }
{
    for arg in args {
        add_arg(uses, arg)?;
    }
    Ok(())
}

fn add_arg<'a>(uses: &mut Vec<TypeUse<'a>>, arg: &'a RArg) -> Result<(), AllocError>
    ensures { OnOk result (map use_tree uses.new.items ≡ map use_tree uses.old.items ++ arg_uses (arg_tree arg.now)) }
{
    match arg {
        RArg::Value(expr) => add_expr(uses, expr),
        RArg::Array(place) => add_place(uses, place),
    }
}

#[cycle(expressions)]
fn add_expr<'a>(uses: &mut Vec<TypeUse<'a>>, expr: &'a RExpr) -> Result<(), AllocError>
    ensures { OnOk result (map use_tree uses.new.items ≡ map use_tree uses.old.items ++ expr_uses (expr_tree expr.now)) }
{
    match expr {
        RExpr::Const(_, _) | RExpr::Temp(_, _) | RExpr::Getchar => Ok(()),
        RExpr::Read(place) | RExpr::Step(_, place) => add_place(uses, place),
        RExpr::Unary(_, _, operand) | RExpr::Cast(_, operand) | RExpr::Putchar(operand) => {
            add_expr(uses, operand)
        }
        RExpr::Printf(_, values) => add_exprs(uses, values),
        RExpr::Binary(_, _, left, right) | RExpr::And(left, right) | RExpr::Or(left, right) => {
            add_expr(uses, left)?;
            add_expr(uses, right)
        }
        RExpr::Choose(_, test, left, right) => {
            add_expr(uses, test)?;
            add_expr(uses, left)?;
            add_expr(uses, right)
        }
        RExpr::Assign(place, value) | RExpr::Update(place, _, _, value) => {
            add_place(uses, place)?;
            add_expr(uses, value)
        }
    }
}

#[cycle(expressions)]
fn add_exprs<'a>(uses: &mut Vec<TypeUse<'a>>, exprs: &'a [RExpr]) -> Result<(), AllocError>
    ensures { OnOk result (map use_tree uses.new.items ≡ map use_tree uses.old.items ++ exprs_uses (exprs_of (map expr_tree exprs.now))) }
{
    for expr in exprs {
        add_expr(uses, expr)?;
    }
    Ok(())
}

#[cycle(expressions)]
fn add_place<'a>(uses: &mut Vec<TypeUse<'a>>, place: &'a Place) -> Result<(), AllocError>
    ensures { OnOk result (map use_tree uses.new.items ≡ map use_tree uses.old.items ++ place_uses (place_tree place.now)) }
{
    match place {
        Place::Var(owner, ctype) => add_use(uses, TypeUse::Object(owner, ctype)),
        Place::Index(array, index) => {
            add_place(uses, array)?;
            add_expr(uses, index)
        }
        Place::Member(whole, _) => add_place(uses, whole),
    }
}
