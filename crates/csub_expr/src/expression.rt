//! The descent of expressions (C11 6.5). Each reading may use a tree of the depth `budget`, and refuses a token where no
//! such tree is left.
ghost use Rattle.std.specs.Prelude.{◌≡◌, ◌≤◌, ◌<◌, ◌-◌, suc, length, map, IfOk, Ok, Err};
ghost use Rattle.csub_tree.specs.Expressions.{expr_tree, exprs_of};
ghost use Rattle.csub_tree.specs.Depth.{expr_depth, exprs_depth};
ghost use Rattle.csub_tree.specs.SpellsExpressions.{assignment, conditional, binary};
ghost use Rattle.csub_expr.specs.Looks.{head_span, rest};
ghost use Rattle.csub_expr.specs.Answers.{Gives};
ghost use Rattle.csub_expr.specs.ListDescent.{separated, never};
ghost use Rattle.csub_expr.specs.ExprDescent.{read, number_at, call_at, word_at, tail_of, behind, open_at, more, choice_at};

use crate::look::{
    assignment_at, begins, begins_key, begins_number, expect, expect_name, head_span, op_at,
    prefix_at, skip, tail_at,
};
use crate::node::{
    assign_node, boxed, call_node, cast_node, choice_node, index_node, is_unary, joined_node,
    member_node, paren_node, prefix_node, step_node,
};
use crate::operator::Tail;
use crate::stop::Stop;
use csub_lex::{Key, Mark, Token, TokenKind};
use csub_tree::{Expr, ExprKind, Name, TypeName};
use std::alloc::Global;

/// A number type (C11 6.7.2): `char`, `int`, `unsigned` or `unsigned int`.
#[tactic(auto, unfolding(crate::specs::ExprDescent::number_at))]
pub fn number(tokens: &[Token]) -> Result<(TypeName, &[Token]), Stop>
    ensures { Gives (λ x. (x.0, x.1.now)) result (number_at tokens.now) }
{
    if begins_key(tokens, Key::Char) {
        return Ok((TypeName::Char, skip(tokens)));
    }
    if begins_key(tokens, Key::Int) {
        return Ok((TypeName::Int, skip(tokens)));
    }
    if begins_key(tokens, Key::Unsigned) {
        let rest = skip(tokens);
        if begins_key(rest, Key::Int) {
            return Ok((TypeName::Unsigned, skip(rest)));
        }
        return Ok((TypeName::Unsigned, rest));
    }
    Err(Stop::At(tokens.len()))
}

// Arguments, at least one, and the depth of the deepest.
#[cycle(expr)]
fn args(alloc: Global, tokens: &[Token], budget: u32) -> Result<(Vec<Expr>, u32, &[Token]), Stop>
    requires { budget ≤ 256 }
    ensures gives { Gives (λ x. (map expr_tree x.0.items, x.2.now)) result (separated (read budget assignment) never (suc (length tokens.now)) tokens.now) }
    ensures deep { IfOk result (λ x. x.1 ≡ exprs_depth (exprs_of (map expr_tree x.0.items))) }
    ensures fits { IfOk result (λ x. x.1 ≤ budget) }
{
    let mut all = Vec::new(alloc);
    let mut deep: u32 = 0;
    let mut rest = tokens;
    'each: loop {
        let (arg, depth, after) = assign(alloc, rest, budget)?;
        all.push(arg)?;
        deep = deep.max(depth);
        if !begins(after, Mark::Comma) {
            return Ok((all, deep, after));
        }
        rest = skip(after);
    }
}

// Behind a name and the opening parenthesis of a call.
#[cycle(expr)]
#[tactic(auto, unfolding(crate::specs::ExprDescent::call_at))]
fn call(
    alloc: Global,
    name: Name,
    tokens: &[Token],
    budget: u32,
) -> Result<(Expr, u32, &[Token]), Stop>
    requires small { budget ≤ 256 }
    requires some { 0 < budget }
    ensures gives { Gives (λ x. (expr_tree x.0, x.2.now)) result (call_at (read (budget - 1)) (budget - 1) name tokens.now) }
    ensures deep { IfOk result (λ x. x.1 ≡ expr_depth (expr_tree x.0)) }
    ensures fits { IfOk result (λ x. x.1 ≤ budget) }
{
    if begins(tokens, Mark::CloseParen) {
        let node = call_node(name, Vec::new(alloc), head_span(tokens).end);
        return Ok((node, 1, skip(tokens)));
    }
    let (args, deep, rest) = args(alloc, tokens, budget - 1)?;
    let (close, rest) = expect(rest, Mark::CloseParen)?;
    Ok((call_node(name, args, close.end), deep + 1, rest))
}

// A primary expression without parentheses around it.
#[cycle(expr)]
#[tactic(auto, unfolding(crate::specs::Looks::rest, crate::specs::Looks::head_span, crate::specs::ExprDescent::word_at, crate::specs::ExprDescent::name_at))]
fn word(alloc: Global, tokens: &[Token], budget: u32) -> Result<(Expr, u32, &[Token]), Stop>
    requires small { budget ≤ 256 }
    requires some { 0 < budget }
    ensures gives { Gives (λ x. (expr_tree x.0, x.2.now)) result (word_at (read (budget - 1)) (budget - 1) tokens.now) }
    ensures deep { IfOk result (λ x. x.1 ≡ expr_depth (expr_tree x.0)) }
    ensures fits { IfOk result (λ x. x.1 ≤ budget) }
{
    let [token, rest @ ..] = tokens else {
        return Err(Stop::At(tokens.len()))
    };
    let span = token.span;
    match &token.kind {
        TokenKind::Number(value, unsigned) => {
            let kind = ExprKind::Number(*value, *unsigned);
            Ok((Expr { kind, span }, 1, rest))
        }
        TokenKind::Char(byte) => {
            let kind = ExprKind::Char(*byte);
            Ok((Expr { kind, span }, 1, rest))
        }
        TokenKind::Text(text) => {
            let kind = ExprKind::Text(text.copy()?);
            Ok((Expr { kind, span }, 1, rest))
        }
        TokenKind::Name(text) => {
            let text = text.copy()?;
            let name = Name { text, span };
            if begins(rest, Mark::OpenParen) {
                return call(alloc, name, skip(rest), budget);
            }
            let kind = ExprKind::Name(name);
            Ok((Expr { kind, span }, 1, rest))
        }
        _ => Err(Stop::At(tokens.len())),
    }
}

// A postfix expression made longer by the tail that the first token begins.
#[cycle(expr)]
fn longer(
    alloc: Global,
    first: Expr,
    first_depth: u32,
    tail: Tail,
    tokens: &[Token],
    budget: u32,
) -> Result<(Expr, u32, &[Token]), Stop>
    requires small { budget ≤ 256 }
    requires is_depth { first_depth ≡ expr_depth (expr_tree first) }
    requires within { first_depth < budget }
    ensures gives { Gives (λ x. (expr_tree x.0, x.2.now)) result (tail_of (read (budget - 1)) (budget - 1) tail (expr_tree first) (head_span tokens.now) (rest tokens.now)) }
    ensures deep { IfOk result (λ x. x.1 ≡ expr_depth (expr_tree x.0)) }
    ensures deeper { IfOk result (λ x. first_depth < x.1) }
    ensures fits { IfOk result (λ x. x.1 ≤ budget) }
{
    let first = boxed(alloc, first)?;
    let after = skip(tokens);
    match tail {
        Tail::Index => {
            let (index, depth, after) = assign(alloc, after, budget - 1)?;
            let index = boxed(alloc, index)?;
            let (close, after) = expect(after, Mark::CloseBracket)?;
            let node = index_node(first, index, close.end);
            Ok((node, first_depth.max(depth) + 1, after))
        }
        Tail::Member => {
            let (name, after) = expect_name(after)?;
            Ok((member_node(first, name), first_depth + 1, after))
        }
        Tail::Step(op) => {
            let end = head_span(tokens).end;
            Ok((step_node(op, first, end), first_depth + 1, after))
        }
    }
}

// The tails that come behind a primary expression.
#[cycle(expr)]
fn tails(
    alloc: Global,
    first: Expr,
    first_depth: u32,
    tokens: &[Token],
    budget: u32,
) -> Result<(Expr, u32, &[Token]), Stop>
    requires small { budget ≤ 256 }
    requires some { 0 < budget }
    requires is_depth { first_depth ≡ expr_depth (expr_tree first) }
    requires within { first_depth ≤ budget }
    ensures gives { Gives (λ x. (expr_tree x.0, x.2.now)) result (behind (read (budget - 1)) (budget - 1) budget (expr_tree first) tokens.now) }
    ensures deep { IfOk result (λ x. x.1 ≡ expr_depth (expr_tree x.0)) }
    ensures fits { IfOk result (λ x. x.1 ≤ budget) }
{
    let mut e = first;
    let mut depth = first_depth;
    let mut rest = tokens;
    'tails: while let Some(tail) = tail_at(rest) {
        if depth >= budget {
            break;
        }
        let (next, next_depth, after) = longer(alloc, e, depth, tail, rest, budget)?;
        e = next;
        depth = next_depth;
        rest = after;
    }
    Ok((e, depth, rest))
}

// Behind an opening parenthesis, which began at `start`: a cast, or an expression in parentheses and its tails.
#[cycle(expr)]
#[tactic(auto, unfolding(crate::specs::ExprDescent::open_at, crate::specs::ExprDescent::cast_at, crate::specs::ExprDescent::paren_at))]
fn opened(
    alloc: Global,
    start: u32,
    tokens: &[Token],
    budget: u32,
) -> Result<(Expr, u32, &[Token]), Stop>
    requires small { budget ≤ 256 }
    requires some { 0 < budget }
    ensures gives { Gives (λ x. (expr_tree x.0, x.2.now)) result (open_at (read (budget - 1)) (budget - 1) start tokens.now) }
    ensures deep { IfOk result (λ x. x.1 ≡ expr_depth (expr_tree x.0)) }
    ensures fits { IfOk result (λ x. x.1 ≤ budget) }
{
    if begins_number(tokens) {
        let (base, rest) = number(tokens)?;
        let (_, rest) = expect(rest, Mark::CloseParen)?;
        let (inner, depth, rest) = unary(alloc, rest, budget - 1)?;
        return Ok((cast_node(alloc, start, base, inner)?, depth + 1, rest));
    }
    let (inner, depth, rest) = assign(alloc, tokens, budget - 1)?;
    let inner = boxed(alloc, inner)?;
    let (close, rest) = expect(rest, Mark::CloseParen)?;
    let node = paren_node(start, inner, close.end);
    tails(alloc, node, depth + 1, rest, budget)
}

// A unary expression (C11 6.5.2 to 6.5.4).
#[cycle(expr)]
#[tactic(auto, unfolding(crate::specs::ExprDescent::read, crate::specs::ExprDescent::chain_at, crate::specs::ExprDescent::unary_at, crate::specs::ExprDescent::unary_by))]
fn unary(alloc: Global, tokens: &[Token], budget: u32) -> Result<(Expr, u32, &[Token]), Stop>
    requires { budget ≤ 256 }
    ensures gives { Gives (λ x. (expr_tree x.0, x.2.now)) result (read budget (binary 0) tokens.now) }
    ensures deep { IfOk result (λ x. x.1 ≡ expr_depth (expr_tree x.0)) }
    ensures fits { IfOk result (λ x. x.1 ≤ budget) }
{
    if budget == 0 {
        return Err(Stop::At(tokens.len()));
    }
    let start = head_span(tokens).start;
    if let Some(sign) = prefix_at(tokens) {
        if budget == 1 {
            return Err(Stop::At(tokens.len()));
        }
        let (inner, depth, rest) = unary(alloc, skip(tokens), budget - 1)?;
        return Ok((prefix_node(alloc, start, sign, inner)?, depth + 1, rest));
    }
    if begins(tokens, Mark::OpenParen) {
        if budget == 1 {
            return Err(Stop::At(tokens.len()));
        }
        return opened(alloc, start, skip(tokens), budget);
    }
    let (first, depth, rest) = word(alloc, tokens, budget)?;
    tails(alloc, first, depth, rest, budget)
}

// The operators of one level that come, with their right sides.
#[cycle(expr)]
fn run(
    alloc: Global,
    first: Expr,
    first_depth: u32,
    tokens: &[Token],
    budget: u32,
    level: u32,
) -> Result<(Expr, u32, &[Token]), Stop>
    requires known { level < 10 }
    requires small { budget ≤ 256 }
    requires some { 0 < budget }
    requires is_depth { first_depth ≡ expr_depth (expr_tree first) }
    requires within { first_depth ≤ budget }
    ensures gives { Gives (λ x. (expr_tree x.0, x.2.now)) result (more (read (budget - 1)) (budget - 1) level budget (expr_tree first) tokens.now) }
    ensures deep { IfOk result (λ x. x.1 ≡ expr_depth (expr_tree x.0)) }
    ensures fits { IfOk result (λ x. x.1 ≤ budget) }
{
    let mut left = first;
    let mut depth = first_depth;
    let mut rest = tokens;
    'more: while let Some(joint) = op_at(rest, level) {
        if depth >= budget {
            break;
        }
        let waiting = boxed(alloc, left)?;
        let (right, right_depth, after) = joined(alloc, skip(rest), budget - 1, level)?;
        left = joined_node(alloc, joint, waiting, right)?;
        depth = depth.max(right_depth) + 1;
        rest = after;
    }
    Ok((left, depth, rest))
}

// A unary expression, and then level by level what is joined to it: no recursion for the first operand.
#[cycle(expr)]
fn joined(
    alloc: Global,
    tokens: &[Token],
    budget: u32,
    level: u32,
) -> Result<(Expr, u32, &[Token]), Stop>
    requires known { level ≤ 10 }
    requires small { budget ≤ 256 }
    ensures gives { Gives (λ x. (expr_tree x.0, x.2.now)) result (read budget (binary level) tokens.now) }
    ensures deep { IfOk result (λ x. x.1 ≡ expr_depth (expr_tree x.0)) }
    ensures fits { IfOk result (λ x. x.1 ≤ budget) }
{
    let (mut left, mut depth, mut rest) = unary(alloc, tokens, budget)?;
    'levels: for at in 0..level {
        let (next, next_depth, after) = run(alloc, left, depth, rest, budget, at)?;
        left = next;
        depth = next_depth;
        rest = after;
    }
    Ok((left, depth, rest))
}

// What a question mark makes of the expression before it.
#[cycle(expr)]
#[tactic(auto, unfolding(crate::specs::ExprDescent::choice_at))]
fn choice(
    alloc: Global,
    first: Expr,
    first_depth: u32,
    tokens: &[Token],
    budget: u32,
) -> Result<(Expr, u32, &[Token]), Stop>
    requires small { budget ≤ 256 }
    requires some { 0 < budget }
    requires is_depth { first_depth ≡ expr_depth (expr_tree first) }
    requires within { first_depth ≤ budget }
    ensures gives { Gives (λ x. (expr_tree x.0, x.2.now)) result (choice_at (read (budget - 1)) (budget - 1) (expr_tree first) tokens.now) }
    ensures deep { IfOk result (λ x. x.1 ≡ expr_depth (expr_tree x.0)) }
    ensures fits { IfOk result (λ x. x.1 ≤ budget) }
{
    if !begins(tokens, Mark::Question) {
        return Ok((first, first_depth, tokens));
    }
    if first_depth >= budget {
        return Ok((first, first_depth, tokens));
    }
    let first = boxed(alloc, first)?;
    let (left, left_depth, rest) = assign(alloc, skip(tokens), budget - 1)?;
    let left = boxed(alloc, left)?;
    let (_, rest) = expect(rest, Mark::Colon)?;
    let (right, right_depth, rest) = conditional(alloc, rest, budget - 1)?;
    let right = boxed(alloc, right)?;
    let depth = first_depth.max(left_depth.max(right_depth)) + 1;
    Ok((choice_node(first, left, right), depth, rest))
}

/// A conditional expression (C11 6.5.15) of at most the depth `budget`, its depth and the tokens behind it.
#[cycle(expr)]
#[tactic(auto, unfolding(crate::specs::ExprDescent::read, crate::specs::ExprDescent::cond_at))]
pub fn conditional(
    alloc: Global,
    tokens: &[Token],
    budget: u32,
) -> Result<(Expr, u32, &[Token]), Stop>
    requires { budget ≤ 256 }
    ensures gives { Gives (λ x. (expr_tree x.0, x.2.now)) result (read budget conditional tokens.now) }
    ensures deep { IfOk result (λ x. x.1 ≡ expr_depth (expr_tree x.0)) }
    ensures fits { IfOk result (λ x. x.1 ≤ budget) }
{
    if budget == 0 {
        return Err(Stop::At(tokens.len()));
    }
    let (first, depth, rest) = joined(alloc, tokens, budget, 10)?;
    choice(alloc, first, depth, rest, budget)
}

/// An assignment expression (C11 6.5.16) of at most the depth `budget`, its depth and the tokens behind it.
#[cycle(expr)]
#[tactic(auto, unfolding(crate::specs::ExprDescent::read, crate::specs::ExprDescent::assign_at, crate::specs::ExprDescent::cond_at, crate::specs::ExprDescent::assign_by))]
pub fn assign(alloc: Global, tokens: &[Token], budget: u32) -> Result<(Expr, u32, &[Token]), Stop>
    requires { budget ≤ 256 }
    ensures gives { Gives (λ x. (expr_tree x.0, x.2.now)) result (read budget assignment tokens.now) }
    ensures deep { IfOk result (λ x. x.1 ≡ expr_depth (expr_tree x.0)) }
    ensures fits { IfOk result (λ x. x.1 ≤ budget) }
{
    if budget == 0 {
        return Err(Stop::At(tokens.len()));
    }
    let (first, depth, rest) = joined(alloc, tokens, budget, 10)?;
    let (left, depth, rest) = choice(alloc, first, depth, rest, budget)?;
    let Some(op) = assignment_at(rest) else {
        return Ok((left, depth, rest))
    };
    if !is_unary(&left) {
        return Ok((left, depth, rest));
    }
    if depth >= budget {
        return Ok((left, depth, rest));
    }
    let waiting = boxed(alloc, left)?;
    let (right, right_depth, rest) = assign(alloc, skip(rest), budget - 1)?;
    let node = assign_node(alloc, op, waiting, right)?;
    Ok((node, depth.max(right_depth) + 1, rest))
}

/// What [`conditional`] reads, in a box, in which it may wait for the tokens behind it, and these tokens.
pub fn conditional_boxed(
    alloc: Global,
    tokens: &[Token],
    budget: u32,
) -> Result<(Box<Expr>, &[Token]), Stop>
    requires { budget ≤ 256 }
    ensures { Gives (λ x. (expr_tree x.0.value, x.1.now)) result (read budget conditional tokens.now) }
{
    let (e, _, rest) = conditional(alloc, tokens, budget)?;
    Ok((boxed(alloc, e)?, rest))
}

/// What [`assign`] reads, in a box, in which it may wait for the tokens behind it, and these tokens.
pub fn assign_boxed(
    alloc: Global,
    tokens: &[Token],
    budget: u32,
) -> Result<(Box<Expr>, &[Token]), Stop>
    requires { budget ≤ 256 }
    ensures { Gives (λ x. (expr_tree x.0.value, x.1.now)) result (read budget assignment tokens.now) }
{
    let (e, _, rest) = assign(alloc, tokens, budget)?;
    Ok((boxed(alloc, e)?, rest))
}
