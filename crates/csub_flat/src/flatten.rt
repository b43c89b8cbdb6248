//! The flat copy of a label, made from the label and where it stands.
ghost use Rattle.std.specs.Prelude.{◌≡◌, map, All, IfOk};
ghost use Rattle.std.specs.Option.{option_map};
ghost use Rattle.csub_objects.specs.Meaning.{type_tree, member_tree};
ghost use Rattle.csub_semantics.specs.Trees.{object, temporary, owner_tree, place_tree, expr_tree, arg_tree};
ghost use Rattle.csub_validity.specs.Valid.{objects_of, place_type};
ghost use Rattle.csub_flat.specs.Frames.{place_in};
ghost use Rattle.csub_flat.specs.Flatten.{slot_or, form_of, part_of, local_variable, flat_variable, element_part, member_part, flat_place, flattened};
ghost use Rattle.csub_flat.specs.Flatten.{parameter_slot, flat_given, paired, temp_slot};
ghost use Rattle.csub_flat.specs.Fits.{FitsPlace, FitsExpr, FitsArg, FitArgs};
ghost use Rattle.csub_flat.specs.Scopes.{globals_at, function_at};
ghost use Rattle.csub_flat.specs.Seen.{form_seen, variable_seen, part_seen, place_seen, expr_seen, given_seen, arg_seen};

use crate::flat::{FlatArg, FlatExpr, FlatGiven, FlatPart, FlatPlace, FlatVariable, Form};
use crate::frame::find_slot;
use crate::fused::{assign_of, binary_of, read_of, step_of};
use crate::places::{slots_before, slots_of};
use crate::scope::Scope;
use csub_objects::{array_length, member_type, number_kind};
use csub_semantics::{CType, IntKind, Member, Owner, Piece, Place, RArg, RExpr, Text};
use csub_validity::places::place_type;
use std::alloc::{AllocError, Global};

/// The slot of an object in a frame of its function; 0 where there is no such object, as in no valid program.
pub fn object_slot(scope: Scope<'_>, name: &Text, number: u32) -> u32
    ensures { result ≡ slot_or (place_in (objects_of (function_at scope.entry)) name.now number) }
{
    match find_slot(&scope.frame.slots, name, number) {
        Some(slot) => slot,
        None => 0,
    }
}

/// The slot of a temporary in a frame of its function; 0 where there is no such temporary, as in no valid program.
pub fn temporary_slot(scope: Scope<'_>, number: u32) -> u32
    ensures { result ≡ temp_slot (function_at scope.entry) number }
{
    if number == 0 {
        return 0;
    }
    if scope.function.temps < number {
        return 0;
    }
    scope.frame.first + (number - 1)
}

/// The slot of a global; 0 where there is no such global, as in no valid program.
fn global_slot(scope: Scope<'_>, name: &Text) -> u32
    ensures { result ≡ slot_or (place_in (globals_at scope.entry) name.now 0) }
{
    match scope.slots.get(name) {
        Some(slot) => *slot,
        None => 0,
    }
}

/// What is at a place of a type.
fn form_of(ctype: &CType) -> Form
    ensures { form_seen result ≡ form_of (type_tree ctype.now) }
{
    Form {
        kind: number_kind(ctype),
        length: array_length(ctype),
    }
}

/// An object of a function, by its slot.
fn local_variable(slot: u32, ctype: &CType) -> FlatVariable
    ensures { variable_seen result ≡ local_variable slot (type_tree ctype.now) }
{
    let form = form_of(ctype);
    match ctype {
        CType::Loose(_) => FlatVariable::Referring(slot, form),
        _ => FlatVariable::Frame(slot, form),
    }
}

/// An object with its slot.
fn flatten_object(scope: Scope<'_>, owner: &Owner, ctype: &CType) -> FlatVariable
    ensures { variable_seen result ≡ flat_variable (globals_at scope.entry) (function_at scope.entry) (object (owner_tree owner.now) (type_tree ctype.now)) }
{
    match owner {
        Owner::Global(name) => FlatVariable::Global(global_slot(scope, name), form_of(ctype)),
        Owner::Local(name, number) => local_variable(object_slot(scope, name, *number), ctype),
    }
}

/// A temporary with its slot.
pub fn flatten_temporary(scope: Scope<'_>, number: u32, kind: IntKind) -> FlatVariable
    ensures { variable_seen result ≡ flat_variable (globals_at scope.entry) (function_at scope.entry) (temporary number kind) }
{
    let form = Form { kind, length: 0 };
    FlatVariable::Frame(temporary_slot(scope, number), form)
}

/// A part of a type with so many slots, or behind so many; where there is no such part, as in no valid program, one of
/// an `int`.
fn part_of(slots: u32, ctype: Option<&CType>) -> FlatPart
    ensures { part_seen result ≡ part_of slots (option_map (λ t. type_tree t.now) ctype.entry) }
{
    let form = match ctype {
        Some(found) => form_of(found),
        None => Form {
            kind: IntKind::Int,
            length: 0,
        },
    };
    FlatPart { slots, form }
}

/// An element, with as many slots as it has cells.
fn element_part(scope: Scope<'_>, element: &Place) -> FlatPart
    requires { FitsPlace (globals_at scope) (function_at scope) (place_tree element.now) }
    ensures { part_seen result ≡ element_part (place_type (place_tree element.now)) }
{
    let ctype = place_type(element);
    let slots = match ctype {
        Some(found) => slots_of(found),
        None => 0,
    };
    part_of(slots, ctype)
}

/// A member of a struct's place, behind the members before it.
fn member_part(scope: Scope<'_>, whole: &Place, name: &Text) -> FlatPart
    requires { FitsPlace (globals_at scope) (function_at scope) (place_tree whole.now) }
    ensures { part_seen result ≡ member_part name.now (place_type (place_tree whole.now)) }
{
    match place_type(whole) {
        Some(ctype) => part_of(slots_before(ctype, name), member_type(ctype, name.bytes())),
        None => part_of(0, None),
    }
}

/// The flat copy of a place. An `Err` is want of memory.
#[cycle(flattening)]
fn flatten_place(alloc: Global, scope: Scope<'_>, place: &Place) -> Result<FlatPlace, AllocError>
    requires { FitsPlace (globals_at scope) (function_at scope) (place_tree place.now) }
    ensures { IfOk result (λ made. place_seen made ≡ flat_place (globals_at scope.entry) (function_at scope.entry) (place_tree place.now)) }
{
    match place {
        Place::Var(owner, ctype) => Ok(FlatPlace::Variable(flatten_object(scope, owner, ctype))),
        Place::Index(array, index) => {
            let part = element_part(scope, place);
            let new_array = flatten_boxed_place(alloc, scope, array)?;
            Ok(FlatPlace::Element(part, new_array, flatten_boxed(alloc, scope, index)?))
        }
        Place::Member(whole, name) => {
            let part = member_part(scope, whole, name);
            Ok(FlatPlace::Member(part, flatten_boxed_place(alloc, scope, whole)?))
        }
    }
}

#[cycle(flattening)]
fn flatten_boxed_place(
    alloc: Global,
    scope: Scope<'_>,
    place: &Place,
) -> Result<Box<FlatPlace>, AllocError>
    requires { FitsPlace (globals_at scope) (function_at scope) (place_tree place.now) }
    ensures { IfOk result (λ made. place_seen made.value ≡ flat_place (globals_at scope.entry) (function_at scope.entry) (place_tree place.now)) }
{
    let made = flatten_place(alloc, scope, place)?;
    Ok(Box::new(alloc, made)?)
}

/// The flat copy of an expression. An `Err` is want of memory.
#[cycle(flattening)]
pub fn flatten_expr(alloc: Global, scope: Scope<'_>, expr: &RExpr) -> Result<FlatExpr, AllocError>
    requires { FitsExpr (globals_at scope) (function_at scope) (expr_tree expr.now) }
    ensures { IfOk result (λ made. expr_seen made ≡ flattened (globals_at scope.entry) (function_at scope.entry) (expr_tree expr.now)) }
{
    match expr {
        RExpr::Const(kind, value) => Ok(FlatExpr::Const(*kind, *value)),
        RExpr::Getchar => Ok(FlatExpr::Getchar),
        RExpr::Putchar(byte) => Ok(FlatExpr::Putchar(flatten_boxed(alloc, scope, byte)?)),
        RExpr::Printf(pieces, values) => {
            let format = copy_pieces(alloc, pieces)?;
            Ok(FlatExpr::Printf(format, flatten_exprs(alloc, scope, values)?))
        }
        RExpr::Read(place) => Ok(read_of(flatten_place(alloc, scope, place)?)),
        RExpr::Temp(number, kind) => {
            let variable = flatten_temporary(scope, *number, *kind);
            Ok(read_of(FlatPlace::Variable(variable)))
        }
        RExpr::Step(op, place) => Ok(step_of(*op, flatten_place(alloc, scope, place)?)),
        RExpr::Assign(place, value) => {
            let target = flatten_place(alloc, scope, place)?;
            Ok(assign_of(target, flatten_boxed(alloc, scope, value)?))
        }
        RExpr::Update(place, op, kind, value) => {
            let target = flatten_place(alloc, scope, place)?;
            Ok(FlatExpr::Update(target, *op, *kind, flatten_boxed(alloc, scope, value)?))
        }
        RExpr::Unary(op, kind, operand) => {
            Ok(FlatExpr::Unary(*op, *kind, flatten_boxed(alloc, scope, operand)?))
        }
        RExpr::Cast(kind, operand) => {
            Ok(FlatExpr::Cast(*kind, flatten_boxed(alloc, scope, operand)?))
        }
        RExpr::Binary(op, kind, left, right) => {
            let new_left = flatten_boxed(alloc, scope, left)?;
            Ok(binary_of(*op, *kind, new_left, flatten_boxed(alloc, scope, right)?))
        }
        RExpr::And(left, right) => {
            let new_left = flatten_boxed(alloc, scope, left)?;
            Ok(FlatExpr::And(new_left, flatten_boxed(alloc, scope, right)?))
        }
        RExpr::Or(left, right) => {
            let new_left = flatten_boxed(alloc, scope, left)?;
            Ok(FlatExpr::Or(new_left, flatten_boxed(alloc, scope, right)?))
        }
        RExpr::Choose(kind, test, left, right) => {
            let new_test = flatten_boxed(alloc, scope, test)?;
            let new_left = flatten_boxed(alloc, scope, left)?;
            Ok(FlatExpr::Choose(
                *kind,
                new_test,
                new_left,
                flatten_boxed(alloc, scope, right)?,
            ))
        }
    }
}

#[cycle(flattening)]
fn flatten_boxed(alloc: Global, scope: Scope<'_>, expr: &RExpr) -> Result<Box<FlatExpr>, AllocError>
    requires { FitsExpr (globals_at scope) (function_at scope) (expr_tree expr.now) }
    ensures { IfOk result (λ made. expr_seen made.value ≡ flattened (globals_at scope.entry) (function_at scope.entry) (expr_tree expr.now)) }
{
    let made = flatten_expr(alloc, scope, expr)?;
    Ok(Box::new(alloc, made)?)
}

/// The flat copies of expressions one after another. An `Err` is want of memory.
#[cycle(flattening)]
fn flatten_exprs(
    alloc: Global,
    scope: Scope<'_>,
    exprs: &[RExpr],
) -> Result<Vec<FlatExpr>, AllocError>
    requires { All (FitsExpr (globals_at scope) (function_at scope)) (map expr_tree exprs.now) }
    ensures { IfOk result (λ made. map expr_seen made.items ≡ map (flattened (globals_at scope.entry) (function_at scope.entry)) (map expr_tree exprs.now)) }
{
    let mut made = Vec::new(alloc);
    for expr in exprs {
        made.push(flatten_expr(alloc, scope, expr)?)?;
    }
    Ok(made)
}

fn copy_pieces(alloc: Global, pieces: &[Piece]) -> Result<Vec<Piece>, AllocError>
    ensures { IfOk result (λ made. made.items ≡ pieces.now) }
{
    let mut made = Vec::new(alloc);
    made.extend_from_slice(pieces)?;
    Ok(made)
}

/// The flat copies of the arguments of a call, with the parameters of the callee, of which the scope is given. An `Err`
/// is want of memory.
pub fn flatten_args(
    alloc: Global,
    scope: Scope<'_>,
    callee: Scope<'_>,
    params: &[Member],
    args: &[RArg],
) -> Result<Vec<FlatArg>, AllocError>
    requires { FitArgs (globals_at scope) (function_at scope) (map member_tree params.now) (map arg_tree args.now) }
    ensures { IfOk result (λ made. map arg_seen made.items ≡ paired (globals_at scope.entry) (function_at scope.entry) (function_at callee.entry) (map member_tree params.now) (map arg_tree args.now)) }
{
    let mut made = Vec::new(alloc);
    let mut rest = args;
    for param in params {
        let [arg, others @ ..] = rest else {
            return Ok(made);
        };
        made.push(flatten_arg(alloc, scope, callee, param, arg)?)?;
        rest = others;
    }
    Ok(made)
}

fn flatten_arg(
    alloc: Global,
    scope: Scope<'_>,
    callee: Scope<'_>,
    param: &Member,
    arg: &RArg,
) -> Result<FlatArg, AllocError>
    requires { FitsArg (globals_at scope) (function_at scope) (member_tree param.now) (arg_tree arg.now) }
    ensures { IfOk result (λ made. arg_seen made ≡ record { slot = parameter_slot (function_at callee.entry) (member_tree param.now); given = flat_given (globals_at scope.entry) (function_at scope.entry) (member_tree param.now) (arg_tree arg.now) }) }
{
    let slot = object_slot(callee, &param.name, 1);
    let given = flatten_given(alloc, scope, param, arg)?;
    Ok(FlatArg { slot, given })
}

/// What an argument gives to its parameter. An `Err` is want of memory.
fn flatten_given(
    alloc: Global,
    scope: Scope<'_>,
    param: &Member,
    arg: &RArg,
) -> Result<FlatGiven, AllocError>
    requires { FitsArg (globals_at scope) (function_at scope) (member_tree param.now) (arg_tree arg.now) }
    ensures { IfOk result (λ made. given_seen made ≡ flat_given (globals_at scope.entry) (function_at scope.entry) (member_tree param.now) (arg_tree arg.now)) }
{
    match arg {
        RArg::Value(expr) => {
            let kind = number_kind(&param.ctype);
            Ok(FlatGiven::Number(kind, flatten_expr(alloc, scope, expr)?))
        }
        RArg::Array(place) => Ok(FlatGiven::Array(flatten_place(alloc, scope, place)?)),
    }
}
