//! The depth of a unit.
ghost use Rattle.std.specs.Prelude.{◌≡◌, ◌≤◌, max, map};
ghost use Rattle.std.specs.Option.{option_map};
ghost use Rattle.csub_tree.specs.Expressions.{expr_tree, kind_tree};
ghost use Rattle.csub_tree.specs.Declarations.{init_tree, inits_of, declarator_tree, declare_tree, param_tree, head_tree};
ghost use Rattle.csub_tree.specs.Statements.{stmt_tree, line_tree, stmts_of};
ghost use Rattle.csub_tree.specs.Units.{constant_tree, item_tree, unit_tree};
ghost use Rattle.csub_tree.specs.Depth.{most, if_there, expr_depth, kind_depth, line_depth, init_depth, inits_depth, declarator_depth, declare_depth, param_depth, head_depth, stmt_depth, stmts_depth, constant_depth, item_depth, unit_depth};

use crate::declaration::{Declarator, Declare, Head, Init, Param};
use crate::expression::{Expr, ExprKind};
use crate::statement::{Stmt, StmtKind};
use crate::unit::{Constant, Item, Unit};

/// The number of units, items, statements, initialisers and expressions on the longest path of a unit, the unit itself
/// counted.
pub fn depth(unit: &Unit) -> u32
    requires { unit_depth (unit_tree unit.now) ≤ 256 }
    ensures { result ≡ unit_depth (unit_tree unit.now) }
{
    items_depth(&unit.items) + 1
}

fn items_depth(items: &[Item]) -> u32
    requires { most (map item_depth (map item_tree items.now)) ≤ 255 }
    ensures { result ≡ most (map item_depth (map item_tree items.now)) }
{
    let mut deep = 0;
    for item in items {
        deep = item_depth(item).max(deep);
    }
    deep
}

fn item_depth(item: &Item) -> u32
    requires { item_depth (item_tree item.now) ≤ 256 }
    ensures { result ≡ item_depth (item_tree item.now) }
{
    match item {
        Item::Struct(_, fields) => declares_depth(fields) + 1,
        Item::Enum(_, constants) => constants_depth(constants) + 1,
        Item::Object(declare) => declare_depth(declare) + 1,
        Item::Prototype(head) => head_depth(head) + 1,
        Item::Function(head, body, _) => head_depth(head).max(stmts_depth(body)) + 1,
    }
}

fn declares_depth(declares: &[Declare]) -> u32
    requires { most (map declare_depth (map declare_tree declares.now)) ≤ 256 }
    ensures { result ≡ most (map declare_depth (map declare_tree declares.now)) }
{
    let mut deep = 0;
    for declare in declares {
        deep = declare_depth(declare).max(deep);
    }
    deep
}

fn constants_depth(constants: &[Constant]) -> u32
    requires { most (map constant_depth (map constant_tree constants.now)) ≤ 256 }
    ensures { result ≡ most (map constant_depth (map constant_tree constants.now)) }
{
    let mut deep = 0;
    for constant in constants {
        deep = if_there_depth(&constant.value).max(deep);
    }
    deep
}

fn declare_depth(declare: &Declare) -> u32
    requires { declare_depth (declare_tree declare.now) ≤ 256 }
    ensures { result ≡ declare_depth (declare_tree declare.now) }
{
    declarators_depth(&declare.vars)
}

fn declarators_depth(vars: &[Declarator]) -> u32
    requires { most (map declarator_depth (map declarator_tree vars.now)) ≤ 256 }
    ensures { result ≡ most (map declarator_depth (map declarator_tree vars.now)) }
{
    let mut deep = 0;
    for var in vars {
        deep = declarator_depth(var).max(deep);
    }
    deep
}

fn declarator_depth(declarator: &Declarator) -> u32
    requires { declarator_depth (declarator_tree declarator.now) ≤ 256 }
    ensures { result ≡ declarator_depth (declarator_tree declarator.now) }
{
    let dims = exprs_depth(&declarator.dims);
    match &declarator.init {
        None => dims,
        Some(init) => init_depth(init).max(dims),
    }
}

fn head_depth(head: &Head) -> u32
    requires { head_depth (head_tree head.now) ≤ 256 }
    ensures { result ≡ head_depth (head_tree head.now) }
{
    params_depth(&head.params)
}

fn params_depth(params: &[Param]) -> u32
    requires { most (map param_depth (map param_tree params.now)) ≤ 256 }
    ensures { result ≡ most (map param_depth (map param_tree params.now)) }
{
    let mut deep = 0;
    for param in params {
        deep = if_there_depth(&param.length).max(deep);
    }
    deep
}

fn if_there_depth(expr: &Option<Expr>) -> u32
    requires { if_there expr_depth (option_map expr_tree expr.now) ≤ 256 }
    ensures { result ≡ if_there expr_depth (option_map expr_tree expr.now) }
{
    match expr {
        None => 0,
        Some(expr) => expr_depth(expr),
    }
}

#[cycle(stmt_depth)]
fn stmt_depth(stmt: &Stmt) -> u32
    requires { stmt_depth (stmt_tree stmt.now) ≤ 256 }
    ensures { result ≡ stmt_depth (stmt_tree stmt.now) }
{
    line_depth(&stmt.kind) + 1
}

#[cycle(stmt_depth)]
fn line_depth(kind: &StmtKind) -> u32
    requires { line_depth (line_tree kind.now) ≤ 255 }
    ensures { result ≡ line_depth (line_tree kind.now) }
{
    match kind {
        StmtKind::Declare(declare) => declare_depth(declare),
        StmtKind::Eval(expr) => expr_depth(expr),
        StmtKind::Empty => 0,
        StmtKind::Block(lines) => stmts_depth(lines),
        StmtKind::If(test, then, None) => expr_depth(test).max(stmt_depth(then)),
        StmtKind::If(test, then, Some(other)) => {
            expr_depth(test).max(stmt_depth(then).max(stmt_depth(other)))
        }
        StmtKind::While(test, body) => expr_depth(test).max(stmt_depth(body)),
        StmtKind::Do(body, test) => stmt_depth(body).max(expr_depth(test)),
        StmtKind::For(None, test, third, body) => {
            if_there_depth(test).max(if_there_depth(third).max(stmt_depth(body)))
        }
        StmtKind::For(Some(first), test, third, body) => {
            stmt_depth(first).max(if_there_depth(test).max(if_there_depth(third).max(stmt_depth(
                body,
            ))))
        }
        StmtKind::Switch(expr, lines) => expr_depth(expr).max(stmts_depth(lines)),
        StmtKind::Case(expr) => expr_depth(expr),
        StmtKind::Default => 0,
        StmtKind::Break => 0,
        StmtKind::Continue => 0,
        StmtKind::Goto(_) => 0,
        StmtKind::Label(_, stmt) => stmt_depth(stmt),
        StmtKind::Return(expr) => if_there_depth(expr),
    }
}

#[cycle(stmt_depth)]
fn stmts_depth(stmts: &[Stmt]) -> u32
    requires { stmts_depth (stmts_of (map stmt_tree stmts.now)) ≤ 256 }
    ensures { result ≡ stmts_depth (stmts_of (map stmt_tree stmts.now)) }
{
    let mut deep = 0;
    for stmt in stmts {
        deep = stmt_depth(stmt).max(deep);
    }
    deep
}

#[cycle(init_depth)]
fn init_depth(init: &Init) -> u32
    requires { init_depth (init_tree init.now) ≤ 256 }
    ensures { result ≡ init_depth (init_tree init.now) }
{
    match init {
        Init::One(expr) => expr_depth(expr) + 1,
        Init::List(inits, _) => inits_depth(inits) + 1,
    }
}

#[cycle(init_depth)]
fn inits_depth(inits: &[Init]) -> u32
    requires { inits_depth (inits_of (map init_tree inits.now)) ≤ 256 }
    ensures { result ≡ inits_depth (inits_of (map init_tree inits.now)) }
{
    let mut deep = 0;
    for init in inits {
        deep = init_depth(init).max(deep);
    }
    deep
}

#[cycle(expr_depth)]
fn expr_depth(expr: &Expr) -> u32
    requires { expr_depth (expr_tree expr.now) ≤ 256 }
    ensures { result ≡ expr_depth (expr_tree expr.now) }
{
    kind_depth(&expr.kind) + 1
}

#[cycle(expr_depth)]
fn kind_depth(kind: &ExprKind) -> u32
    requires { kind_depth (kind_tree kind.now) ≤ 255 }
    ensures { result ≡ kind_depth (kind_tree kind.now) }
{
    match kind {
        ExprKind::Number(..) => 0,
        ExprKind::Char(_) => 0,
        ExprKind::Text(_) => 0,
        ExprKind::Name(_) => 0,
        ExprKind::Paren(inner) => expr_depth(inner),
        ExprKind::Unary(_, operand) => expr_depth(operand),
        ExprKind::Cast(_, operand) => expr_depth(operand),
        ExprKind::Step(_, operand) => expr_depth(operand),
        ExprKind::Binary(_, left, right) => expr_depth(left).max(expr_depth(right)),
        ExprKind::And(left, right) => expr_depth(left).max(expr_depth(right)),
        ExprKind::Or(left, right) => expr_depth(left).max(expr_depth(right)),
        ExprKind::Choose(test, left, right) => {
            expr_depth(test).max(expr_depth(left).max(expr_depth(right)))
        }
        ExprKind::Assign(_, left, right) => expr_depth(left).max(expr_depth(right)),
        ExprKind::Call(_, args) => exprs_depth(args),
        ExprKind::Index(array, index) => expr_depth(array).max(expr_depth(index)),
        ExprKind::Member(object, _) => expr_depth(object),
    }
}

#[cycle(expr_depth)]
fn exprs_depth(exprs: &[Expr]) -> u32
    requires { most (map expr_depth (map expr_tree exprs.now)) ≤ 256 }
    ensures { result ≡ most (map expr_depth (map expr_tree exprs.now)) }
{
    let mut deep = 0;
    for expr in exprs {
        deep = expr_depth(expr).max(deep);
    }
    deep
}
