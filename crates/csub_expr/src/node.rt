//! Nodes of expressions, made of what was read.
ghost use Rattle.std.specs.Prelude.{◌≡◌, map, IfOk, IfErr};
ghost use Rattle.csub_tree.specs.Expressions.{expr_tree, exprs_of, span_of};
ghost use Rattle.csub_tree.specs.Expressions as tree;
ghost use Rattle.csub_tree.specs.SpellsExpressions.{joined, applied};
ghost use Rattle.csub_expr.specs.Looks.{operator_view, prefix_view};
ghost use Rattle.csub_expr.specs.ExprDescent.{joins, is_unary};
ghost use Rattle.csub_expr.specs.declared.stop.Stop.TheVariants.{Memory};

use crate::operator::{Joint, Sign};
use crate::stop::Stop;
use csub_text::{BinOp, Span, StepOp};
use csub_tree::{Expr, ExprKind, Name, TypeName};
use std::alloc::Global;

/// Whether an expression may stand left of an assignment: it is no binary operation, choice or assignment.
pub fn is_unary(e: &Expr) -> bool
    ensures { result ≡ is_unary (expr_tree e.now) }
{
    match e.kind {
        ExprKind::Number(..) => true,
        ExprKind::Char(_) => true,
        ExprKind::Text(_) => true,
        ExprKind::Name(_) => true,
        ExprKind::Paren(_) => true,
        ExprKind::Unary(..) => true,
        ExprKind::Cast(..) => true,
        ExprKind::Step(..) => true,
        ExprKind::Binary(..) => false,
        ExprKind::And(..) => false,
        ExprKind::Or(..) => false,
        ExprKind::Choose(..) => false,
        ExprKind::Assign(..) => false,
        ExprKind::Call(..) => true,
        ExprKind::Index(..) => true,
        ExprKind::Member(..) => true,
    }
}

/// The expression in a box. All are boxed here, since a call of a generic function at a type of many forms takes long to
/// prove; and what waits for later operands waits in a box, since it takes long to prove that an expression may be dropped.
pub fn boxed(alloc: Global, e: Expr) -> Result<Box<Expr>, Stop>
    ensures ok { IfOk result (λ made. made.value ≡ e) }
    ensures err { IfErr result (λ stop. stop ≡ Memory) }
{
    Ok(Box::new(alloc, e)?)
}

/// The node of an expression in parentheses, from the opening one to the closing one (C11 6.5.1).
pub fn paren_node(start: u32, inner: Box<Expr>, end: u32) -> Expr
    ensures { expr_tree result ≡ joins (tree.Paren (expr_tree inner.value)) start end }
{
    let span = Span { start, end };
    let kind = ExprKind::Paren(inner);
    Expr { kind, span }
}

/// The node of a cast, from the opening parenthesis on (C11 6.5.4). An `Err` is want of memory.
pub fn cast_node(alloc: Global, start: u32, base: TypeName, inner: Expr) -> Result<Expr, Stop>
    ensures ok { IfOk result (λ e. expr_tree e ≡ joins (tree.Cast base (expr_tree inner)) start (span_of (expr_tree inner)).end) }
    ensures err { IfErr result (λ e. e ≡ Memory) }
{
    let span = Span {
        start,
        end: inner.span.end,
    };
    let kind = ExprKind::Cast(base, boxed(alloc, inner)?);
    Ok(Expr { kind, span })
}

/// The node of an operator before its operand (C11 6.5.3). An `Err` is want of memory.
pub fn prefix_node(alloc: Global, start: u32, sign: Sign, inner: Expr) -> Result<Expr, Stop>
    ensures ok { IfOk result (λ e. expr_tree e ≡ joins (applied (prefix_view sign) (expr_tree inner)) start (span_of (expr_tree inner)).end) }
    ensures err { IfErr result (λ e. e ≡ Memory) }
{
    let span = Span {
        start,
        end: inner.span.end,
    };
    let operand = boxed(alloc, inner)?;
    match sign {
        Sign::Unary(op) => Ok(Expr {
            kind: ExprKind::Unary(op, operand),
            span,
        }),
        Sign::Step(op) => Ok(Expr {
            kind: ExprKind::Step(op, operand),
            span,
        }),
    }
}

/// The node of an operator between two operands (C11 6.5.5 to 6.5.14). An `Err` is want of memory.
pub fn joined_node(alloc: Global, joint: Joint, left: Box<Expr>, right: Expr) -> Result<Expr, Stop>
    ensures ok { IfOk result (λ e. expr_tree e ≡ joins (joined (operator_view joint) (expr_tree left.value) (expr_tree right)) (span_of (expr_tree left.value)).start (span_of (expr_tree right)).end) }
    ensures err { IfErr result (λ e. e ≡ Memory) }
{
    let span = Span {
        start: left.span.start,
        end: right.span.end,
    };
    let right = boxed(alloc, right)?;
    match joint {
        Joint::Binary(op) => Ok(Expr {
            kind: ExprKind::Binary(op, left, right),
            span,
        }),
        Joint::And => Ok(Expr {
            kind: ExprKind::And(left, right),
            span,
        }),
        Joint::Or => Ok(Expr {
            kind: ExprKind::Or(left, right),
            span,
        }),
    }
}

/// The node of an assignment (C11 6.5.16). An `Err` is want of memory.
pub fn assign_node(
    alloc: Global,
    op: Option<BinOp>,
    left: Box<Expr>,
    right: Expr,
) -> Result<Expr, Stop>
    ensures ok { IfOk result (λ e. expr_tree e ≡ joins (tree.Assign op (expr_tree left.value) (expr_tree right)) (span_of (expr_tree left.value)).start (span_of (expr_tree right)).end) }
    ensures err { IfErr result (λ e. e ≡ Memory) }
{
    let span = Span {
        start: left.span.start,
        end: right.span.end,
    };
    let kind = ExprKind::Assign(op, left, boxed(alloc, right)?);
    Ok(Expr { kind, span })
}

/// The node of a choice (C11 6.5.15).
pub fn choice_node(test: Box<Expr>, left: Box<Expr>, right: Box<Expr>) -> Expr
    ensures { expr_tree result ≡ joins (tree.Choose (expr_tree test.value) (expr_tree left.value) (expr_tree right.value)) (span_of (expr_tree test.value)).start (span_of (expr_tree right.value)).end }
{
    let span = Span {
        start: test.span.start,
        end: right.span.end,
    };
    let kind = ExprKind::Choose(test, left, right);
    Expr { kind, span }
}

/// The node of an index, up to the closing bracket (C11 6.5.2.1).
pub fn index_node(array: Box<Expr>, index: Box<Expr>, end: u32) -> Expr
    ensures { expr_tree result ≡ joins (tree.Index (expr_tree array.value) (expr_tree index.value)) (span_of (expr_tree array.value)).start end }
{
    let span = Span {
        start: array.span.start,
        end,
    };
    let kind = ExprKind::Index(array, index);
    Expr { kind, span }
}

/// The node of a member (C11 6.5.2.3).
pub fn member_node(object: Box<Expr>, name: Name) -> Expr
    ensures { expr_tree result ≡ joins (tree.Member (expr_tree object.value) name) (span_of (expr_tree object.value)).start name.span.end }
{
    let span = Span {
        start: object.span.start,
        end: name.span.end,
    };
    let kind = ExprKind::Member(object, name);
    Expr { kind, span }
}

/// The node of a step behind its operand, up to the mark (C11 6.5.2.4).
pub fn step_node(op: StepOp, operand: Box<Expr>, end: u32) -> Expr
    ensures { expr_tree result ≡ joins (tree.Step op (expr_tree operand.value)) (span_of (expr_tree operand.value)).start end }
{
    let span = Span {
        start: operand.span.start,
        end,
    };
    let kind = ExprKind::Step(op, operand);
    Expr { kind, span }
}

/// The node of a call, up to the closing parenthesis (C11 6.5.2.2).
pub fn call_node(name: Name, args: Vec<Expr>, end: u32) -> Expr
    ensures { expr_tree result ≡ joins (tree.Call name (exprs_of (map expr_tree args.items))) name.span.start end }
{
    let span = Span {
        start: name.span.start,
        end,
    };
    Expr {
        kind: ExprKind::Call(name, args),
        span,
    }
}
