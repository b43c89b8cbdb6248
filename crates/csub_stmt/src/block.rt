//! The descent of statements (C11 6.8). `budget` is the depth that a statement or line may have; of the functions for what
//! stands inside a statement it is the depth that is left for that.
ghost use Rattle.std.specs.Prelude.{◌≡◌, ◌≤◌, suc, length, map, Option, Some, None, Ok, Err};
ghost use Rattle.std.specs.Option.{option_map};
ghost use Rattle.csub_lex.specs.declared.token.Mark.TheVariants.{CloseBrace};
ghost use Rattle.csub_tree.specs.Expressions.{expr_tree, span_of};
ghost use Rattle.csub_tree.specs.Statements.{stmt_tree, perhaps_of, Line, Empty};
ghost use Rattle.csub_expr.specs.Looks.{begins};
ghost use Rattle.csub_expr.specs.Answers.{Gives};
ghost use Rattle.csub_expr.specs.ListDescent.{repeated};
ghost use Rattle.csub_stmt.specs.StatementDescent.{bare_name, read_stmt, read_line, read_lines, switch_line_by, first_at, block_at, if_at, while_at, do_at, for_at, switch_at, plain_at, inner};

use crate::base::begins_base;
use crate::node::{
    block_node, boxed, do_node, else_node, for_node, if_node, label_node, push_line, switch_node,
    unboxed, while_node,
};
use crate::opening::{Opening, opening_at};
use crate::statement::{
    case, declared, default, evaluated, evaluated_end, expect_key, give, go_on, jump, leave, maybe,
    test,
};
use csub_expr::expression::assign_boxed;
use csub_expr::look::{begins, begins_key, expect, head_span, skip};
use csub_expr::stop::Stop;
use csub_lex::{Key, Mark, Token};
use csub_text::Span;
use csub_tree::{Expr, ExprKind, Name, Stmt, StmtKind};
use std::alloc::Global;

fn empty(span: Span) -> Stmt
    ensures { stmt_tree result ≡ Line Empty span }
{
    Stmt {
        kind: StmtKind::Empty,
        span,
    }
}

fn start_of(e: &Box<Expr>) -> u32
    ensures { result ≡ (span_of (expr_tree e.now.value)).start }
{
    e.span.start
}

// The name that an expression is.
fn bare_name(e: Box<Expr>) -> Option<Name>
    ensures { result ≡ bare_name (expr_tree e.value) }
{
    match unboxed(e).kind {
        ExprKind::Name(name) => Some(name),
        _ => None,
    }
}

// The first part of a `for` (C11 6.8.5.3), and its semicolon.
#[tactic(auto, unfolding(crate::specs::StatementDescent::first_at))]
fn first(
    alloc: Global,
    tokens: &[Token],
    budget: u32,
) -> Result<(Option<Box<Stmt>>, &[Token]), Stop>
    requires { budget ≤ 256 }
    ensures { Gives (λ x. (perhaps_of (option_map (λ p. stmt_tree p.value) x.0), x.1.now)) result (first_at budget tokens.now) }
{
    if begins(tokens, Mark::Semicolon) {
        return Ok((None, skip(tokens)));
    }
    if budget == 0 {
        return Err(Stop::At(tokens.len()));
    }
    if begins_base(tokens) {
        let (x, rest) = declared(alloc, tokens, budget - 1)?;
        return Ok((Some(boxed(alloc, x)?), rest));
    }
    let (x, rest) = evaluated(alloc, tokens, budget - 1)?;
    Ok((Some(boxed(alloc, x)?), rest))
}

// A statement inside another.
#[cycle(stmt)]
fn inside(alloc: Global, tokens: &[Token], budget: u32) -> Result<(Box<Stmt>, &[Token]), Stop>
    requires { budget ≤ 256 }
    ensures { Gives (λ x. (stmt_tree x.0.value, x.1.now)) result (read_stmt budget tokens.now) }
{
    let (x, rest) = stmt(alloc, tokens, budget)?;
    Ok((boxed(alloc, x)?, rest))
}

// A line of a block (C11 6.8.2): a declaration or a statement, and the tokens behind it.
#[cycle(stmt)]
#[tactic(auto, unfolding(crate::specs::StatementDescent::read_line, crate::specs::StatementDescent::line_by))]
fn line(alloc: Global, tokens: &[Token], budget: u32) -> Result<(Stmt, &[Token]), Stop>
    requires { budget ≤ 256 }
    ensures { Gives (λ x. (stmt_tree x.0, x.1.now)) result (read_line budget tokens.now) }
{
    if budget == 0 {
        return Err(Stop::At(tokens.len()));
    }
    if begins_base(tokens) {
        return declared(alloc, tokens, budget - 1);
    }
    stmt(alloc, tokens, budget)
}

/// The lines of a block (C11 6.8.2) up to its closing brace, each of at most the depth `budget`, and the tokens from the
/// brace on.
#[cycle(stmt)]
pub fn lines(alloc: Global, tokens: &[Token], budget: u32) -> Result<(Vec<Stmt>, &[Token]), Stop>
    requires { budget ≤ 256 }
    ensures { Gives (λ x. (map stmt_tree x.0.items, x.1.now)) result (read_lines budget tokens.now) }
{
    let mut all = Vec::new(alloc);
    let mut rest = tokens;
    'each: while !begins(rest, Mark::CloseBrace) {
        let (one, after) = line(alloc, rest, budget)?;
        push_line(&mut all, one)?;
        rest = after;
    }
    Ok((all, rest))
}

// A line of the block of a `switch` (C11 6.8.4.2): a label of it, or a line as in every block.
#[cycle(stmt)]
#[tactic(auto, unfolding(crate::specs::StatementDescent::switch_line_by, crate::specs::StatementDescent::read_line))]
fn switch_line(alloc: Global, tokens: &[Token], budget: u32) -> Result<(Stmt, &[Token]), Stop>
    requires { budget ≤ 256 }
    ensures { Gives (λ x. (stmt_tree x.0, x.1.now)) result (switch_line_by (read_stmt budget) budget tokens.now) }
{
    if budget == 0 {
        return Err(Stop::At(tokens.len()));
    }
    if begins_key(tokens, Key::Case) {
        if budget == 1 {
            return Err(Stop::At(tokens.len()));
        }
        return case(alloc, head_span(tokens).start, skip(tokens), budget - 1);
    }
    if begins_key(tokens, Key::Default) {
        return default(head_span(tokens).start, skip(tokens));
    }
    line(alloc, tokens, budget)
}

#[cycle(stmt)]
fn switch_lines(alloc: Global, tokens: &[Token], budget: u32) -> Result<(Vec<Stmt>, &[Token]), Stop>
    requires { budget ≤ 256 }
    ensures { Gives (λ x. (map stmt_tree x.0.items, x.1.now)) result (repeated (switch_line_by (read_stmt budget) budget) (begins CloseBrace) (suc (length tokens.now)) tokens.now) }
{
    let mut all = Vec::new(alloc);
    let mut rest = tokens;
    'each: while !begins(rest, Mark::CloseBrace) {
        let (one, after) = switch_line(alloc, rest, budget)?;
        push_line(&mut all, one)?;
        rest = after;
    }
    Ok((all, rest))
}

// Behind an opening brace, which began at `start` (C11 6.8.2).
#[cycle(stmt)]
#[tactic(auto, unfolding(crate::specs::StatementDescent::block_at, crate::specs::StatementDescent::read_line))]
fn braced(
    alloc: Global,
    start: u32,
    tokens: &[Token],
    budget: u32,
) -> Result<(Stmt, &[Token]), Stop>
    requires { budget ≤ 256 }
    ensures { Gives (λ x. (stmt_tree x.0, x.1.now)) result (block_at (read_stmt budget) budget start tokens.now) }
{
    let (all, rest) = lines(alloc, tokens, budget)?;
    let (close, rest) = expect(rest, Mark::CloseBrace)?;
    Ok((block_node(start, all, close.end), rest))
}

// `if` (C11 6.8.4.1).
#[cycle(stmt)]
#[tactic(auto, unfolding(crate::specs::StatementDescent::inner, crate::specs::StatementDescent::if_at, crate::specs::StatementDescent::else_at))]
fn choice(alloc: Global, tokens: &[Token], budget: u32) -> Result<(Stmt, &[Token]), Stop>
    requires { budget ≤ 256 }
    ensures { Gives (λ x. (stmt_tree x.0, x.1.now)) result (inner (read_stmt budget) budget (if_at (read_stmt budget) budget) tokens.now) }
{
    if budget == 0 {
        return Err(Stop::At(tokens.len()));
    }
    let start = head_span(tokens).start;
    let (e, rest) = test(alloc, skip(tokens), budget)?;
    let (x, rest) = inside(alloc, rest, budget)?;
    if begins_key(rest, Key::Else) {
        let (y, rest) = inside(alloc, skip(rest), budget)?;
        return Ok((else_node(start, e, x, y), rest));
    }
    Ok((if_node(start, e, x), rest))
}

// `while` (C11 6.8.5.1).
#[cycle(stmt)]
#[tactic(auto, unfolding(crate::specs::StatementDescent::inner, crate::specs::StatementDescent::while_at))]
fn while_loop(alloc: Global, tokens: &[Token], budget: u32) -> Result<(Stmt, &[Token]), Stop>
    requires { budget ≤ 256 }
    ensures { Gives (λ x. (stmt_tree x.0, x.1.now)) result (inner (read_stmt budget) budget (while_at (read_stmt budget) budget) tokens.now) }
{
    if budget == 0 {
        return Err(Stop::At(tokens.len()));
    }
    let start = head_span(tokens).start;
    let (e, rest) = test(alloc, skip(tokens), budget)?;
    let (x, rest) = inside(alloc, rest, budget)?;
    Ok((while_node(start, e, x), rest))
}

// `do` (C11 6.8.5.2).
#[cycle(stmt)]
#[tactic(auto, unfolding(crate::specs::StatementDescent::inner, crate::specs::StatementDescent::do_at, crate::specs::StatementDescent::ended_by))]
fn do_loop(alloc: Global, tokens: &[Token], budget: u32) -> Result<(Stmt, &[Token]), Stop>
    requires { budget ≤ 256 }
    ensures { Gives (λ x. (stmt_tree x.0, x.1.now)) result (inner (read_stmt budget) budget (do_at (read_stmt budget) budget) tokens.now) }
{
    if budget == 0 {
        return Err(Stop::At(tokens.len()));
    }
    let start = head_span(tokens).start;
    let (x, rest) = inside(alloc, skip(tokens), budget)?;
    let (_, rest) = expect_key(rest, Key::While)?;
    let (e, rest) = test(alloc, rest, budget)?;
    let (semicolon, rest) = expect(rest, Mark::Semicolon)?;
    Ok((do_node(start, x, e, semicolon.end), rest))
}

// `for` (C11 6.8.5.3).
#[cycle(stmt)]
#[tactic(auto, unfolding(crate::specs::StatementDescent::inner, crate::specs::StatementDescent::for_at, crate::specs::StatementDescent::for_parts, crate::specs::StatementDescent::for_body))]
fn for_loop(alloc: Global, tokens: &[Token], budget: u32) -> Result<(Stmt, &[Token]), Stop>
    requires { budget ≤ 256 }
    ensures { Gives (λ x. (stmt_tree x.0, x.1.now)) result (inner (read_stmt budget) budget (for_at (read_stmt budget) budget) tokens.now) }
{
    if budget == 0 {
        return Err(Stop::At(tokens.len()));
    }
    let start = head_span(tokens).start;
    let (_, rest) = expect(skip(tokens), Mark::OpenParen)?;
    let (p, rest) = first(alloc, rest, budget)?;
    let (e, rest) = maybe(alloc, rest, Mark::Semicolon, budget)?;
    let (_, rest) = expect(rest, Mark::Semicolon)?;
    let (f, rest) = maybe(alloc, rest, Mark::CloseParen, budget)?;
    let (_, rest) = expect(rest, Mark::CloseParen)?;
    let (x, rest) = inside(alloc, rest, budget)?;
    Ok((for_node(start, p, e, f, x), rest))
}

// `switch` (C11 6.8.4.2).
#[cycle(stmt)]
#[tactic(auto, unfolding(crate::specs::StatementDescent::inner, crate::specs::StatementDescent::switch_at, crate::specs::StatementDescent::switch_body))]
fn switch(alloc: Global, tokens: &[Token], budget: u32) -> Result<(Stmt, &[Token]), Stop>
    requires { budget ≤ 256 }
    ensures { Gives (λ x. (stmt_tree x.0, x.1.now)) result (inner (read_stmt budget) budget (switch_at (read_stmt budget) budget) tokens.now) }
{
    if budget == 0 {
        return Err(Stop::At(tokens.len()));
    }
    let start = head_span(tokens).start;
    let (e, rest) = test(alloc, skip(tokens), budget)?;
    let (_, rest) = expect(rest, Mark::OpenBrace)?;
    let (all, rest) = switch_lines(alloc, rest, budget)?;
    let (close, rest) = expect(rest, Mark::CloseBrace)?;
    Ok((switch_node(start, e, all, close.end), rest))
}

// A statement that begins with no keyword and no brace: a label and its statement (C11 6.8.1), or an expression statement.
#[cycle(stmt)]
#[tactic(auto, unfolding(crate::specs::StatementDescent::plain_at))]
fn plain(alloc: Global, tokens: &[Token], budget: u32) -> Result<(Stmt, &[Token]), Stop>
    requires { budget ≤ 256 }
    ensures { Gives (λ x. (stmt_tree x.0, x.1.now)) result (plain_at (read_stmt budget) budget tokens.now) }
{
    let (e, rest) = assign_boxed(alloc, tokens, budget)?;
    if !begins(rest, Mark::Colon) {
        return evaluated_end(e, rest);
    }
    let start = start_of(&e);
    let Some(name) = bare_name(e) else {
        return Err(Stop::At(rest.len()))
    };
    let (x, rest) = inside(alloc, skip(rest), budget)?;
    Ok((label_node(name, start, x), rest))
}

// A statement (C11 6.8) of at most the depth `budget`, and the tokens behind it.
#[cycle(stmt)]
#[tactic(auto, unfolding(crate::specs::StatementDescent::read_stmt, crate::specs::StatementDescent::stmt_at, crate::specs::StatementDescent::stmt_by, crate::specs::StatementDescent::outer, crate::specs::StatementDescent::empty_at))]
fn stmt(alloc: Global, tokens: &[Token], budget: u32) -> Result<(Stmt, &[Token]), Stop>
    requires { budget ≤ 256 }
    ensures { Gives (λ x. (stmt_tree x.0, x.1.now)) result (read_stmt budget tokens.now) }
{
    if budget == 0 {
        return Err(Stop::At(tokens.len()));
    }
    let inside = budget - 1;
    let start = head_span(tokens).start;
    let rest = skip(tokens);
    match opening_at(tokens) {
        Opening::Brace => braced(alloc, start, rest, inside),
        Opening::Semicolon => Ok((empty(head_span(tokens)), rest)),
        Opening::If => choice(alloc, tokens, inside),
        Opening::While => while_loop(alloc, tokens, inside),
        Opening::Do => do_loop(alloc, tokens, inside),
        Opening::For => for_loop(alloc, tokens, inside),
        Opening::Switch => switch(alloc, tokens, inside),
        Opening::Break => leave(start, rest),
        Opening::Continue => go_on(start, rest),
        Opening::Goto => jump(start, rest, inside),
        Opening::Return => give(alloc, start, rest, inside),
        Opening::Plain => plain(alloc, tokens, inside),
    }
}
