//! What is made of each kind of expression, by what is made of its parts.
ghost use Rattle.std.specs.Prelude.{◌≡◌, pos, IfOk, IsTrue, length, map};
ghost use Rattle.csub_types.specs.declared.kind.IntKind.TheVariants.{Int};
ghost use Rattle.csub_types.specs.Arithmetic.{binary_kind, unary_kind, operation_kind};
ghost use Rattle.csub_types.specs.Kinds.{common, promote};
ghost use Rattle.csub_objects.specs.Meaning.{type_tree};
ghost use Rattle.csub_semantics.specs.Trees.{choice, conjunction, constant, conversion, disjunction, element_place, expr_tree as value_tree, exprs_of, formatted, input_byte, member_place, object, operation, output_byte, owner_tree, place_tree, reading, stepping, unary_operation, variable};
ghost use Rattle.csub_rules.specs.Sorts.{a_place, a_value, element_of, has_member, is_array, is_number_place, member_of, the_kind};
ghost use Rattle.csub_rules.specs.ExprSorts.{named_kind, number_literal_kind};
ghost use Rattle.csub_resolution.specs.Values.{assigned, first_value, no_place};
ghost use Rattle.csub_lower.specs.Made.{made_place, made_sort, made_value};

use crate::boxes::{boxed_place, boxed_value};
use crate::made::{Made, Number, to_array, to_number_place, to_struct};
use csub_objects::{CType, copy_type};
use csub_rules::{named_kind, number_literal_kind};
use csub_semantics::{Owner, Piece, Place, RExpr};
use csub_text::{BinOp, StepOp, UnaryOp};
use csub_tree::{Name, TypeName};
use csub_types::{IntKind, binary_kind, common, operation_kind, promote, unary_kind};
use std::alloc::{AllocError, Global};

/// A constant (C11 6.4.4).
pub(crate) fn constant_node<'t>(
    alloc: Global,
    kind: IntKind,
    number: i64,
) -> Result<Made<'t>, AllocError>
    ensures sort { IfOk result (λ m. made_sort m ≡ a_value kind) }
    ensures place { IfOk result (λ m. made_place m ≡ no_place) }
    ensures value { IfOk result (λ m. made_value m ≡ constant kind number) }
{
    let value = boxed_value(alloc, RExpr::Const(kind, number))?;
    Ok(Made::Value(value, kind))
}

/// A number as it is written (C11 6.4.4.1).
pub(crate) fn literal_node<'t>(
    alloc: Global,
    number: u32,
    suffix: bool,
) -> Result<Made<'t>, AllocError>
    ensures sort { IfOk result (λ m. made_sort m ≡ a_value (number_literal_kind number suffix)) }
    ensures place { IfOk result (λ m. made_place m ≡ no_place) }
    ensures value { IfOk result (λ m. made_value m ≡ constant (number_literal_kind number suffix) (pos number)) }
{
    constant_node(
        alloc,
        number_literal_kind(number, suffix),
        i64::from(number),
    )
}

/// An object of a type.
pub(crate) fn object_node<'t>(
    alloc: Global,
    owner: Owner,
    ctype: &'t CType,
) -> Result<Made<'t>, AllocError>
    ensures sort { IfOk result (λ m. made_sort m ≡ a_place (type_tree ctype.now)) }
    ensures place { IfOk result (λ m. made_place m ≡ variable (object (owner_tree owner) (type_tree ctype.now))) }
    ensures value { IfOk result (λ m. made_value m ≡ reading (variable (object (owner_tree owner) (type_tree ctype.now)))) }
{
    let place = boxed_place(alloc, Place::Var(owner, copy_type(ctype)?))?;
    Ok(Made::Place(place, ctype))
}

/// `+`, `-`, `!` or `~` and an operand (C11 6.5.3.3).
pub(crate) fn unary_node<'t>(alloc: Global, op: UnaryOp, a: Number) -> Result<Made<'t>, AllocError>
    ensures sort { IfOk result (λ m. made_sort m ≡ a_value (unary_kind op (promote a.kind))) }
    ensures place { IfOk result (λ m. made_place m ≡ no_place) }
    ensures value { IfOk result (λ m. made_value m ≡ unary_operation op (promote a.kind) (value_tree a.value.value)) }
{
    let kind = promote(a.kind);
    let value = boxed_value(alloc, RExpr::Unary(op, kind, a.value))?;
    Ok(Made::Value(value, unary_kind(op, kind)))
}

/// A cast (C11 6.5.4).
pub(crate) fn cast_node<'t>(alloc: Global, to: &TypeName, a: Number) -> Result<Made<'t>, AllocError>
    ensures sort { IfOk result (λ m. made_sort m ≡ a_value (named_kind to.now)) }
    ensures place { IfOk result (λ m. made_place m ≡ no_place) }
    ensures value { IfOk result (λ m. made_value m ≡ conversion (named_kind to.now) (value_tree a.value.value)) }
{
    let kind = named_kind(to);
    let value = boxed_value(alloc, RExpr::Cast(kind, a.value))?;
    Ok(Made::Value(value, kind))
}

/// `++` or `--` and its place (C11 6.5.2.4 and 6.5.3.1).
pub(crate) fn step_node<'t>(alloc: Global, op: StepOp, a: Made) -> Result<Made<'t>, AllocError>
    requires { IsTrue (is_number_place (made_sort a)) }
    ensures sort { IfOk result (λ m. made_sort m ≡ a_value (the_kind (made_sort a.entry))) }
    ensures place { IfOk result (λ m. made_place m ≡ no_place) }
    ensures value { IfOk result (λ m. made_value m ≡ stepping op (made_place a.entry)) }
{
    let (place, kind) = to_number_place(a);
    let value = boxed_value(alloc, RExpr::Step(op, Box::into_inner(place)))?;
    Ok(Made::Value(value, kind))
}

/// Two operands of an operator from `*` to `|` (C11 6.5.5 to 6.5.12).
pub(crate) fn binary_node<'t>(
    alloc: Global,
    op: BinOp,
    a: Number,
    b: Number,
) -> Result<Made<'t>, AllocError>
    ensures sort { IfOk result (λ m. made_sort m ≡ a_value (binary_kind op (operation_kind op a.kind b.kind))) }
    ensures place { IfOk result (λ m. made_place m ≡ no_place) }
    ensures value { IfOk result (λ m. made_value m ≡ operation op (operation_kind op a.kind b.kind) (value_tree a.value.value) (value_tree b.value.value)) }
{
    let kind = operation_kind(op, a.kind, b.kind);
    let value = boxed_value(alloc, RExpr::Binary(op, kind, a.value, b.value))?;
    Ok(Made::Value(value, binary_kind(op, kind)))
}

/// `a && b` (C11 6.5.13).
pub(crate) fn and_node<'t>(alloc: Global, a: Number, b: Number) -> Result<Made<'t>, AllocError>
    ensures sort { IfOk result (λ m. made_sort m ≡ a_value Int) }
    ensures place { IfOk result (λ m. made_place m ≡ no_place) }
    ensures value { IfOk result (λ m. made_value m ≡ conjunction (value_tree a.value.value) (value_tree b.value.value)) }
{
    let value = boxed_value(alloc, RExpr::And(a.value, b.value))?;
    Ok(Made::Value(value, IntKind::Int))
}

/// `a || b` (C11 6.5.14).
pub(crate) fn or_node<'t>(alloc: Global, a: Number, b: Number) -> Result<Made<'t>, AllocError>
    ensures sort { IfOk result (λ m. made_sort m ≡ a_value Int) }
    ensures place { IfOk result (λ m. made_place m ≡ no_place) }
    ensures value { IfOk result (λ m. made_value m ≡ disjunction (value_tree a.value.value) (value_tree b.value.value)) }
{
    let value = boxed_value(alloc, RExpr::Or(a.value, b.value))?;
    Ok(Made::Value(value, IntKind::Int))
}

/// `c ? a : b` (C11 6.5.15).
pub(crate) fn choice_node<'t>(
    alloc: Global,
    c: Number,
    a: Number,
    b: Number,
) -> Result<Made<'t>, AllocError>
    ensures sort { IfOk result (λ m. made_sort m ≡ a_value (common a.kind b.kind)) }
    ensures place { IfOk result (λ m. made_place m ≡ no_place) }
    ensures value { IfOk result (λ m. made_value m ≡ choice (common a.kind b.kind) (value_tree c.value.value) (value_tree a.value.value) (value_tree b.value.value)) }
{
    let kind = common(a.kind, b.kind);
    let value = boxed_value(alloc, RExpr::Choose(kind, c.value, a.value, b.value))?;
    Ok(Made::Value(value, kind))
}

/// What is assigned to a place, or joined with it in the kind of the operation (C11 6.5.16). An `Err` is want of memory.
fn assigned(
    alloc: Global,
    op: Option<BinOp>,
    place: Box<Place>,
    kind: IntKind,
    b: Number,
) -> Result<Box<RExpr>, AllocError>
    ensures { IfOk result (λ v. value_tree v.value ≡ assigned op kind b.kind (place_tree place.value) (value_tree b.value.value)) }
{
    let place = Box::into_inner(place);
    match op {
        None => boxed_value(alloc, RExpr::Assign(place, b.value)),
        Some(op) => {
            let joint = operation_kind(op, kind, b.kind);
            boxed_value(alloc, RExpr::Update(place, op, joint, b.value))
        }
    }
}

/// An assignment (C11 6.5.16).
pub(crate) fn assign_node<'t>(
    alloc: Global,
    op: Option<BinOp>,
    a: Made,
    b: Number,
) -> Result<Made<'t>, AllocError>
    requires { IsTrue (is_number_place (made_sort a)) }
    ensures sort { IfOk result (λ m. made_sort m ≡ a_value (the_kind (made_sort a.entry))) }
    ensures place { IfOk result (λ m. made_place m ≡ no_place) }
    ensures value { IfOk result (λ m. made_value m ≡ assigned op (the_kind (made_sort a.entry)) b.kind (made_place a.entry) (value_tree b.value.value)) }
{
    let (place, kind) = to_number_place(a);
    Ok(Made::Value(assigned(alloc, op, place, kind, b)?, kind))
}

/// `a[i]` (C11 6.5.2.1).
pub(crate) fn index_node<'t>(alloc: Global, a: Made<'t>, i: Number) -> Result<Made<'t>, AllocError>
    requires { IsTrue (is_array (made_sort a)) }
    ensures sort { IfOk result (λ m. made_sort m ≡ element_of (made_sort a.entry)) }
    ensures place { IfOk result (λ m. made_place m ≡ element_place tt (made_place a.entry) (value_tree i.value.value)) }
    ensures value { IfOk result (λ m. made_value m ≡ reading (element_place tt (made_place a.entry) (value_tree i.value.value))) }
{
    let (array, element) = to_array(a);
    let place = boxed_place(alloc, Place::Index(array, i.value))?;
    Ok(Made::Place(place, element))
}

/// `a.m` (C11 6.5.2.3).
pub(crate) fn member_node<'t>(alloc: Global, a: Made<'t>, m: &Name) -> Result<Made<'t>, AllocError>
    requires { IsTrue (has_member m.now.text (made_sort a)) }
    ensures sort { IfOk result (λ found. made_sort found ≡ member_of m.now.text (made_sort a.entry)) }
    ensures place { IfOk result (λ found. made_place found ≡ member_place m.now.text (made_place a.entry)) }
    ensures value { IfOk result (λ found. made_value found ≡ reading (member_place m.now.text (made_place a.entry))) }
{
    let (whole, ctype) = to_struct(a, m.text.bytes());
    let place = boxed_place(alloc, Place::Member(whole, m.text.copy()?))?;
    Ok(Made::Place(place, ctype))
}

/// `getchar()` (C11 7.21.7.6).
pub(crate) fn input_node<'t>(alloc: Global) -> Result<Made<'t>, AllocError>
    ensures sort { IfOk result (λ m. made_sort m ≡ a_value Int) }
    ensures place { IfOk result (λ m. made_place m ≡ no_place) }
    ensures value { IfOk result (λ m. made_value m ≡ input_byte) }
{
    let value = boxed_value(alloc, RExpr::Getchar)?;
    Ok(Made::Value(value, IntKind::Int))
}

/// `putchar` of a number (C11 7.21.7.8), which is the only one of these values.
pub(crate) fn output_node<'t>(alloc: Global, mut values: Vec<RExpr>) -> Result<Made<'t>, AllocError>
    requires { length values.items ≡ 1 }
    ensures sort { IfOk result (λ m. made_sort m ≡ a_value Int) }
    ensures place { IfOk result (λ m. made_place m ≡ no_place) }
    ensures value { IfOk result (λ m. made_value m ≡ output_byte (first_value (exprs_of (map value_tree values.items)))) }
{
    let byte = boxed_value(alloc, values.remove(0))?;
    let value = boxed_value(alloc, RExpr::Putchar(byte))?;
    Ok(Made::Value(value, IntKind::Int))
}

/// `printf` of the pieces of a format and the values of its conversions (C11 7.21.6.3).
pub(crate) fn formatted_node<'t>(
    alloc: Global,
    pieces: Vec<Piece>,
    values: Vec<RExpr>,
) -> Result<Made<'t>, AllocError>
    ensures sort { IfOk result (λ m. made_sort m ≡ a_value Int) }
    ensures place { IfOk result (λ m. made_place m ≡ no_place) }
    ensures value { IfOk result (λ m. made_value m ≡ formatted pieces.items (exprs_of (map value_tree values.items))) }
{
    let value = boxed_value(alloc, RExpr::Printf(pieces, values))?;
    Ok(Made::Value(value, IntKind::Int))
}
