//! The tokens that points are named by.
ghost use Rattle.std.specs.Prelude.{◌≡◌};
ghost use Rattle.csub_tree.specs.Expressions.{expr_tree};
ghost use Rattle.csub_resolution.specs.Positions.{first_of_step, first_token};

use csub_rules::first_bytes;
use csub_text::{Span, StepOp};
use csub_tree::{Expr, ExprKind};

/// The first token of a `++` or `--` at a place, whose operand has its first token there: the operator or the operand
/// (C11 6.5.3.1 and 6.5.2.4).
fn first_of_step(op: StepOp, span: Span, operand: Span) -> Span
    ensures { result ≡ first_of_step op span operand }
{
    match op {
        StepOp::PreUp | StepOp::PreDown => first_bytes(2, span),
        StepOp::PostUp | StepOp::PostDown => operand,
    }
}

/// The first token of an expression: a parenthesis belongs to it, and so does an operator before its operand.
pub fn first_token(e: &Expr) -> Span
    ensures { result ≡ first_token (expr_tree e.now) }
{
    match &e.kind {
        ExprKind::Number(_, _) | ExprKind::Char(_) | ExprKind::Text(_) => e.span,
        ExprKind::Name(x) => x.span,
        ExprKind::Paren(_) | ExprKind::Unary(_, _) | ExprKind::Cast(_, _) => first_bytes(1, e.span),
        ExprKind::Step(op, a) => first_of_step(*op, e.span, first_token(a)),
        ExprKind::Binary(_, a, _) | ExprKind::And(a, _) | ExprKind::Or(a, _) => first_token(a),
        ExprKind::Choose(a, _, _) | ExprKind::Assign(_, a, _) => first_token(a),
        ExprKind::Call(f, _) => f.span,
        ExprKind::Index(a, _) | ExprKind::Member(a, _) => first_token(a),
    }
}
