//! The parts of statements that hold no statement (C11 6.8). `budget` is the depth that is left for what stands inside.
ghost use Rattle.std.specs.Prelude.{◌≡◌, ◌≤◌, Option, Some, None, Ok, Err};
ghost use Rattle.std.specs.Option.{option_map};
ghost use Rattle.csub_tree.specs.Expressions.{expr_tree};
ghost use Rattle.csub_tree.specs.Statements.{stmt_tree, line_tree, Break, Continue};
ghost use Rattle.csub_expr.specs.Answers.{Gives};
ghost use Rattle.csub_stmt.specs.StatementDescent.{line, expect_key, maybe_at, declared_at, evaluated_end, evaluated_at, case_at, default_at, ended_by, test_at, goto_at, return_at, read_stmt};

use crate::declaration::decl;
use crate::node::{perhaps_unboxed, unboxed};
use csub_expr::expression::{assign_boxed, conditional_boxed};
use csub_expr::look::{begins, begins_key, expect, expect_name, head_span, skip};
use csub_expr::stop::Stop;
use csub_lex::{Key, Mark, Token};
use csub_text::Span;
use csub_tree::{Expr, Stmt, StmtKind};
use std::alloc::Global;

// A statement from one byte to another.
fn line(kind: StmtKind, start: u32, end: u32) -> Stmt
    ensures { stmt_tree result ≡ line (line_tree kind) start end }
{
    let span = Span { start, end };
    Stmt { kind, span }
}

/// The keyword that has to come, with its place. It is refused where another token or none comes.
#[tactic(auto, unfolding(crate::specs::StatementDescent::expect_key))]
pub fn expect_key(tokens: &[Token], key: Key) -> Result<(Span, &[Token]), Stop>
    ensures { Gives (λ x. (x.0, x.1.now)) result (expect_key key tokens.now) }
{
    if begins_key(tokens, key) {
        Ok((head_span(tokens), skip(tokens)))
    } else {
        Err(Stop::At(tokens.len()))
    }
}

/// An expression before a mark, or none.
#[tactic(auto, unfolding(crate::specs::StatementDescent::maybe_at))]
pub fn maybe(
    alloc: Global,
    tokens: &[Token],
    mark: Mark,
    budget: u32,
) -> Result<(Option<Box<Expr>>, &[Token]), Stop>
    requires { budget ≤ 256 }
    ensures { Gives (λ x. (option_map (λ e. expr_tree e.value) x.0, x.1.now)) result (maybe_at budget mark tokens.now) }
{
    if begins(tokens, mark) {
        return Ok((None, tokens));
    }
    let (e, rest) = assign_boxed(alloc, tokens, budget)?;
    Ok((Some(e), rest))
}

/// A declaration as a line (C11 6.8.2).
#[tactic(auto, unfolding(crate::specs::StatementDescent::declared_at))]
pub fn declared(alloc: Global, tokens: &[Token], budget: u32) -> Result<(Stmt, &[Token]), Stop>
    requires { budget ≤ 256 }
    ensures { Gives (λ x. (stmt_tree x.0, x.1.now)) result (declared_at budget tokens.now) }
{
    let (declare, rest) = decl(alloc, tokens, budget)?;
    let span = declare.span;
    let kind = StmtKind::Declare(declare);
    Ok((Stmt { kind, span }, rest))
}

/// An expression statement whose expression was read (C11 6.8.3).
#[tactic(auto, unfolding(crate::specs::StatementDescent::evaluated_end))]
pub fn evaluated_end(e: Box<Expr>, tokens: &[Token]) -> Result<(Stmt, &[Token]), Stop>
    ensures { Gives (λ x. (stmt_tree x.0, x.1.now)) result (evaluated_end (expr_tree e.value) tokens.now) }
{
    let (semicolon, rest) = expect(tokens, Mark::Semicolon)?;
    let start = e.span.start;
    Ok((line(StmtKind::Eval(unboxed(e)), start, semicolon.end), rest))
}

/// An expression statement (C11 6.8.3).
#[tactic(auto, unfolding(crate::specs::StatementDescent::evaluated_at))]
pub fn evaluated(alloc: Global, tokens: &[Token], budget: u32) -> Result<(Stmt, &[Token]), Stop>
    requires { budget ≤ 256 }
    ensures { Gives (λ x. (stmt_tree x.0, x.1.now)) result (evaluated_at budget tokens.now) }
{
    let (e, rest) = assign_boxed(alloc, tokens, budget)?;
    evaluated_end(e, rest)
}

/// A case label whose keyword, which began at `start`, was read (C11 6.8.1).
#[tactic(auto, unfolding(crate::specs::StatementDescent::case_at))]
pub fn case(
    alloc: Global,
    start: u32,
    tokens: &[Token],
    budget: u32,
) -> Result<(Stmt, &[Token]), Stop>
    requires { budget ≤ 256 }
    ensures { Gives (λ x. (stmt_tree x.0, x.1.now)) result (case_at budget start tokens.now) }
{
    let (e, rest) = conditional_boxed(alloc, tokens, budget)?;
    let (colon, rest) = expect(rest, Mark::Colon)?;
    Ok((line(StmtKind::Case(unboxed(e)), start, colon.end), rest))
}

/// `default` whose keyword, which began at `start`, was read (C11 6.8.1).
#[tactic(auto, unfolding(crate::specs::StatementDescent::default_at))]
pub fn default(start: u32, tokens: &[Token]) -> Result<(Stmt, &[Token]), Stop>
    ensures { Gives (λ x. (stmt_tree x.0, x.1.now)) result (default_at start tokens.now) }
{
    let (colon, rest) = expect(tokens, Mark::Colon)?;
    Ok((line(StmtKind::Default, start, colon.end), rest))
}

/// `break` whose keyword, which began at `start`, was read (C11 6.8.6.3).
#[tactic(auto, unfolding(crate::specs::StatementDescent::ended_by))]
pub fn leave(start: u32, tokens: &[Token]) -> Result<(Stmt, &[Token]), Stop>
    ensures { Gives (λ x. (stmt_tree x.0, x.1.now)) result (ended_by Break start tokens.now) }
{
    let (semicolon, rest) = expect(tokens, Mark::Semicolon)?;
    Ok((line(StmtKind::Break, start, semicolon.end), rest))
}

/// `continue` whose keyword, which began at `start`, was read (C11 6.8.6.2).
#[tactic(auto, unfolding(crate::specs::StatementDescent::ended_by))]
pub fn go_on(start: u32, tokens: &[Token]) -> Result<(Stmt, &[Token]), Stop>
    ensures { Gives (λ x. (stmt_tree x.0, x.1.now)) result (ended_by Continue start tokens.now) }
{
    let (semicolon, rest) = expect(tokens, Mark::Semicolon)?;
    Ok((line(StmtKind::Continue, start, semicolon.end), rest))
}

/// The expression in parentheses that a statement begins with (C11 6.8.4 and 6.8.5).
#[tactic(auto, unfolding(crate::specs::StatementDescent::test_at))]
pub fn test(alloc: Global, tokens: &[Token], budget: u32) -> Result<(Box<Expr>, &[Token]), Stop>
    requires { budget ≤ 256 }
    ensures { Gives (λ x. (expr_tree x.0.value, x.1.now)) result (test_at (read_stmt budget) budget tokens.now) }
{
    let (_, rest) = expect(tokens, Mark::OpenParen)?;
    let (e, rest) = assign_boxed(alloc, rest, budget)?;
    let (_, rest) = expect(rest, Mark::CloseParen)?;
    Ok((e, rest))
}

/// `goto` whose keyword, which began at `start`, was read (C11 6.8.6.1).
#[tactic(auto, unfolding(crate::specs::StatementDescent::goto_at, crate::specs::StatementDescent::ended_by))]
pub fn jump(start: u32, tokens: &[Token], budget: u32) -> Result<(Stmt, &[Token]), Stop>
    ensures { Gives (λ x. (stmt_tree x.0, x.1.now)) result (goto_at (read_stmt budget) budget start tokens.now) }
{
    let (name, rest) = expect_name(tokens)?;
    let (semicolon, rest) = expect(rest, Mark::Semicolon)?;
    Ok((line(StmtKind::Goto(name), start, semicolon.end), rest))
}

/// `return` whose keyword, which began at `start`, was read (C11 6.8.6.4).
#[tactic(auto, unfolding(crate::specs::StatementDescent::return_at, crate::specs::StatementDescent::ended_by))]
pub fn give(
    alloc: Global,
    start: u32,
    tokens: &[Token],
    budget: u32,
) -> Result<(Stmt, &[Token]), Stop>
    requires { budget ≤ 256 }
    ensures { Gives (λ x. (stmt_tree x.0, x.1.now)) result (return_at (read_stmt budget) budget start tokens.now) }
{
    let (value, rest) = maybe(alloc, tokens, Mark::Semicolon, budget)?;
    let (semicolon, rest) = expect(rest, Mark::Semicolon)?;
    Ok((
        line(
            StmtKind::Return(perhaps_unboxed(value)),
            start,
            semicolon.end,
        ),
        rest,
    ))
}
