//! What the operators give.
ghost use Rattle.std.specs.Prelude.{◌≡◌, IfOk, ◌*ℤ◌};
ghost use Rattle.csub_types.specs.Kinds.{IsOf, IsPromoted, low_bits};
ghost use Rattle.csub_types.specs.Settled.{settled, truth};
ghost use Rattle.csub_types.specs.Arithmetic.{unary, binary, IsRightOperand, unary_kind, binary_kind, operation_kind};
ghost use Rattle.csub_types.specs.declared.kind.IntKind.TheVariants.{Int};

use crate::division::{divide, remain};
use crate::kind::{IntKind, common, convert, promote};
use crate::settle::settle;
use crate::shift::{shift_left, shift_right};
use crate::trap::Trap;
use csub_text::{BinOp, UnaryOp};

/// The kind in which an operation is computed: a shift promotes its left operand alone (C11 6.5.7p3), the others convert
/// both to their common kind (6.3.1.8p1).
pub fn operation_kind(op: BinOp, a: IntKind, b: IntKind) -> IntKind
    ensures value { result ≡ operation_kind op a b }
    ensures promoted { IsPromoted result }
{
    match op {
        BinOp::Shl | BinOp::Shr => promote(a),
        _ => common(a, b),
    }
}

/// The kind of an operation's result: `int` for a comparison (C11 6.5.8p6 and 6.5.9p3).
pub fn binary_kind(op: BinOp, kind: IntKind) -> IntKind
    ensures { result ≡ binary_kind op kind }
{
    match op {
        BinOp::Lt | BinOp::Gt | BinOp::Le | BinOp::Ge | BinOp::Eq | BinOp::Ne => IntKind::Int,
        _ => kind,
    }
}

/// The kind of a result of `+`, `-`, `!` or `~`: `int` for `!` (C11 6.5.3.3p5).
pub fn unary_kind(op: UnaryOp, kind: IntKind) -> IntKind
    ensures { result ≡ unary_kind op kind }
{
    match op {
        UnaryOp::Not => IntKind::Int,
        _ => kind,
    }
}

/// What an operator gives on one operand of a promoted kind (C11 6.5.3.3). The only trap is `Overflow`.
#[inline(always)]
pub fn unary(op: UnaryOp, kind: IntKind, a: i64) -> Result<i64, Trap>
    requires promoted { IsPromoted kind }
    requires operand { IsOf kind a }
    ensures value { result ≡ unary op kind a }
    ensures of_kind { IfOk result (IsOf kind) }
    ensures of_result_kind { IfOk result (IsOf (unary_kind op kind)) }
{
    match op {
        UnaryOp::Plus => Ok(a),
        UnaryOp::Minus => settle(kind, -a),
        UnaryOp::Not => Ok(truth(a == 0)),
        UnaryOp::Flip => Ok(convert(kind, -1 - a)),
    }
}

/// What an operator gives on two operands of a promoted kind (C11 6.5.5 to 6.5.12); the right operand of a shift
/// is any number. The traps are `Overflow`, `Divide` and `Shift`.
#[inline(always)]
pub fn binary(op: BinOp, kind: IntKind, a: i64, b: i64) -> Result<i64, Trap>
    requires promoted { IsPromoted kind }
    requires left { IsOf kind a }
    requires right { IsRightOperand op kind b }
    ensures value { result ≡ binary op kind a b }
    ensures of_kind { IfOk result (IsOf kind) }
    ensures of_result_kind { IfOk result (IsOf (binary_kind op kind)) }
{
    match op {
        BinOp::Mul => multiply(kind, a, b),
        BinOp::Div => divide(kind, a, b),
        BinOp::Rem => remain(kind, a, b),
        BinOp::Add => settle(kind, a + b),
        BinOp::Sub => settle(kind, a - b),
        BinOp::Shl => shift_left(kind, a, b),
        BinOp::Shr => shift_right(a, b),
        BinOp::Lt => Ok(truth(a < b)),
        BinOp::Gt => Ok(truth(b < a)),
        BinOp::Le => Ok(truth(a <= b)),
        BinOp::Ge => Ok(truth(b <= a)),
        BinOp::Eq => Ok(truth(a == b)),
        BinOp::Ne => Ok(truth(a != b)),
        BinOp::BitAnd => Ok(convert(kind, i64::from(low_bits(a) & low_bits(b)))),
        BinOp::BitXor => Ok(convert(kind, i64::from(low_bits(a) ^ low_bits(b)))),
        BinOp::BitOr => Ok(convert(kind, i64::from(low_bits(a) | low_bits(b)))),
    }
}

/// 1 or 0, as comparisons, `!`, `&&` and `||` give.
#[inline(always)]
pub fn truth(holds: bool) -> i64
    ensures { result ≡ truth holds }
{
    if holds { 1 } else { 0 }
}

/// A product.
#[inline(always)]
fn multiply(kind: IntKind, a: i64, b: i64) -> Result<i64, Trap>
    requires promoted { IsPromoted kind }
    requires left { IsOf kind a }
    requires right { IsOf kind b }
    ensures { result ≡ settled kind (a *ℤ b) }
{
    match kind {
        IntKind::Unsigned => {
            // The product of two `unsigned int` fits 64 bits, but not the signed ones.
            let product = (a as u64 * b as u64) % 4_294_967_296;
            Ok(product as i64)
        }
        _ => settle(kind, a * b),
    }
}

/// The low 32 bits.
#[inline(always)]
fn low_bits(a: i64) -> u32
    ensures { result ≡ low_bits Int a }
{
    a.rem_euclid(4_294_967_296) as u32
}
