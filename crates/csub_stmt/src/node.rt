//! Statements with statements inside, made of what was read.
ghost use Rattle.std.specs.Prelude.{◌≡◌, ◌++◌, ◌∷◌, [], map, Option, Some, None, IfOk, IfErr, OnOk};
ghost use Rattle.std.specs.Option.{option_map};
ghost use Rattle.csub_tree.specs.Expressions.{expr_tree};
ghost use Rattle.csub_tree.specs.Statements.{stmt_tree, stmts_of, perhaps_of, Block, If, While, Do, For, Switch, Label, NoStmt, OneStmt};
ghost use Rattle.csub_expr.specs.declared.stop.Stop.TheVariants.{Memory};
ghost use Rattle.csub_stmt.specs.StatementDescent.{line, stmt_span};

use csub_expr::stop::Stop;
use csub_text::Span;
use csub_tree::{Expr, Name, Stmt, StmtKind};
use std::alloc::Global;

/// The expression of a box. All are taken out here, since a call of a generic function at a type of many forms takes long to prove.
pub fn unboxed(e: Box<Expr>) -> Expr
    ensures { result ≡ e.value }
{
    Box::into_inner(e)
}

/// The expression of a box, where there is one.
pub fn perhaps_unboxed(e: Option<Box<Expr>>) -> Option<Expr>
    ensures { option_map expr_tree result ≡ option_map (λ e. expr_tree e.value) e }
{
    match e {
        None => None,
        Some(e) => Some(unboxed(e)),
    }
}

pub fn block_node(start: u32, all: Vec<Stmt>, end: u32) -> Stmt
    ensures { stmt_tree result ≡ line (Block (stmts_of (map stmt_tree all.items))) start end }
{
    let span = Span { start, end };
    let kind = StmtKind::Block(all);
    Stmt { kind, span }
}

pub fn switch_node(start: u32, e: Box<Expr>, all: Vec<Stmt>, end: u32) -> Stmt
    ensures { stmt_tree result ≡ line (Switch (expr_tree e.value) (stmts_of (map stmt_tree all.items))) start end }
{
    let span = Span { start, end };
    let kind = StmtKind::Switch(unboxed(e), all);
    Stmt { kind, span }
}

/// The statement in a box.
pub fn boxed(alloc: Global, x: Stmt) -> Result<Box<Stmt>, Stop>
    ensures ok { IfOk result (λ b. b.value ≡ x) }
    ensures err { IfErr result (λ e. e ≡ Memory) }
{
    Ok(Box::new(alloc, x)?)
}

/// Adds a line to those of a block. All are added here, since a call of a generic function at a type of many forms takes long to prove.
pub fn push_line(lines: &mut Vec<Stmt>, line: Stmt) -> Result<(), Stop>
    ensures ok { OnOk result (lines.new.items ≡ lines.old.items ++ line ∷ []) }
    ensures err { IfErr result (λ e. e ≡ Memory) }
{
    lines.push(line)?;
    Ok(())
}

pub fn if_node(start: u32, e: Box<Expr>, x: Box<Stmt>) -> Stmt
    ensures { stmt_tree result ≡ line (If (expr_tree e.value) (stmt_tree x.value) NoStmt) start (stmt_span (stmt_tree x.value)).end }
{
    let span = Span {
        start,
        end: x.span.end,
    };
    let kind = StmtKind::If(unboxed(e), x, None);
    Stmt { kind, span }
}

pub fn else_node(start: u32, e: Box<Expr>, x: Box<Stmt>, y: Box<Stmt>) -> Stmt
    ensures { stmt_tree result ≡ line (If (expr_tree e.value) (stmt_tree x.value) (OneStmt (stmt_tree y.value))) start (stmt_span (stmt_tree y.value)).end }
{
    let span = Span {
        start,
        end: y.span.end,
    };
    let kind = StmtKind::If(unboxed(e), x, Some(y));
    Stmt { kind, span }
}

pub fn while_node(start: u32, e: Box<Expr>, x: Box<Stmt>) -> Stmt
    ensures { stmt_tree result ≡ line (While (expr_tree e.value) (stmt_tree x.value)) start (stmt_span (stmt_tree x.value)).end }
{
    let span = Span {
        start,
        end: x.span.end,
    };
    let kind = StmtKind::While(unboxed(e), x);
    Stmt { kind, span }
}

pub fn do_node(start: u32, x: Box<Stmt>, e: Box<Expr>, end: u32) -> Stmt
    ensures { stmt_tree result ≡ line (Do (stmt_tree x.value) (expr_tree e.value)) start end }
{
    let span = Span { start, end };
    let kind = StmtKind::Do(x, unboxed(e));
    Stmt { kind, span }
}

pub fn label_node(name: Name, start: u32, x: Box<Stmt>) -> Stmt
    ensures { stmt_tree result ≡ line (Label name (stmt_tree x.value)) start (stmt_span (stmt_tree x.value)).end }
{
    let span = Span {
        start,
        end: x.span.end,
    };
    let kind = StmtKind::Label(name, x);
    Stmt { kind, span }
}

pub fn for_node(
    start: u32,
    p: Option<Box<Stmt>>,
    e: Option<Box<Expr>>,
    f: Option<Box<Expr>>,
    x: Box<Stmt>,
) -> Stmt
    ensures { stmt_tree result ≡ line (For (perhaps_of (option_map (λ p. stmt_tree p.value) p)) (option_map (λ e. expr_tree e.value) e) (option_map (λ f. expr_tree f.value) f) (stmt_tree x.value)) start (stmt_span (stmt_tree x.value)).end }
{
    let span = Span {
        start,
        end: x.span.end,
    };
    let kind = StmtKind::For(p, perhaps_unboxed(e), perhaps_unboxed(f), x);
    Stmt { kind, span }
}
