//! The descent of the parameters of functions (C11 6.7.6.3). `budget` is the depth that is left for what stands inside.
ghost use Rattle.std.specs.Prelude.{◌≤◌, suc, length, map};
ghost use Rattle.csub_tree.specs.Expressions.{expr_tree};
ghost use Rattle.csub_tree.specs.Declarations.{param_tree};
ghost use Rattle.csub_expr.specs.Answers.{Gives};
ghost use Rattle.csub_expr.specs.ListDescent.{separated, never};
ghost use Rattle.csub_stmt.specs.DeclarationDescent.{length_or_none, array_after, param_at, params_at};
ghost use Rattle.std.specs.Option.{option_map};

use crate::base::{base, begins_name};
use crate::node::perhaps_unboxed;
use csub_expr::expression::conditional_boxed;
use csub_expr::look::{begins, begins_key, expect, expect_name, head_span, skip};
use csub_expr::stop::Stop;
use csub_lex::{Key, Mark, Token};
use csub_text::Span;
use csub_tree::{Expr, Name, Param, TypeName};
use std::alloc::Global;

#[tactic(auto, unfolding(crate::specs::DeclarationDescent::length_or_none))]
fn length_or_none(
    alloc: Global,
    tokens: &[Token],
    budget: u32,
) -> Result<(Option<Box<Expr>>, &[Token]), Stop>
    requires { budget ≤ 256 }
    ensures { Gives (λ x. (option_map (λ e. expr_tree e.value) x.0, x.1.now)) result (length_or_none budget tokens.now) }
{
    if begins(tokens, Mark::CloseBracket) {
        return Ok((None, tokens));
    }
    let (e, rest) = conditional_boxed(alloc, tokens, budget)?;
    Ok((Some(e), rest))
}

// The brackets of a parameter that so far runs from `start` to `end`.
#[tactic(auto, unfolding(crate::specs::DeclarationDescent::array_after))]
fn array_after(
    alloc: Global,
    base: TypeName,
    name: Option<Name>,
    start: u32,
    end: u32,
    tokens: &[Token],
    budget: u32,
) -> Result<(Param, &[Token]), Stop>
    requires { budget ≤ 256 }
    ensures { Gives (λ x. (param_tree x.0, x.1.now)) result (array_after budget base name start end tokens.now) }
{
    if begins(tokens, Mark::OpenBracket) {
        let (length, rest) = length_or_none(alloc, skip(tokens), budget)?;
        let (close, rest) = expect(rest, Mark::CloseBracket)?;
        let span = Span {
            start,
            end: close.end,
        };
        let array = true;
        let length = perhaps_unboxed(length);
        return Ok((
            Param {
                base,
                name,
                array,
                length,
                span,
            },
            rest,
        ));
    }
    Ok((
        Param {
            base,
            name,
            array: false,
            length: None,
            span: Span { start, end },
        },
        tokens,
    ))
}

#[tactic(auto, unfolding(crate::specs::DeclarationDescent::param_at, crate::specs::DeclarationDescent::param_from, crate::specs::DeclarationDescent::param_behind))]
fn param(alloc: Global, tokens: &[Token], budget: u32) -> Result<(Param, &[Token]), Stop>
    requires { budget ≤ 256 }
    ensures { Gives (λ x. (param_tree x.0, x.1.now)) result (param_at budget tokens.now) }
{
    let start = head_span(tokens).start;
    let (base, end, rest) = base(tokens)?;
    if begins_name(rest) {
        let (name, rest) = expect_name(rest)?;
        let end = name.span.end;
        return array_after(alloc, base, Some(name), start, end, rest, budget);
    }
    array_after(alloc, base, None, start, end, rest, budget)
}

fn some_params(alloc: Global, tokens: &[Token], budget: u32) -> Result<(Vec<Param>, &[Token]), Stop>
    requires { budget ≤ 256 }
    ensures { Gives (λ x. (map param_tree x.0.items, x.1.now)) result (separated (param_at budget) never (suc (length tokens.now)) tokens.now) }
{
    let mut all = Vec::new(alloc);
    let mut rest = tokens;
    'each: loop {
        let (one, after) = param(alloc, rest, budget)?;
        all.push(one)?;
        if !begins(after, Mark::Comma) {
            return Ok((all, after));
        }
        rest = skip(after);
    }
}

/// The parameters of a function (C11 6.7.6.3) before the closing parenthesis, and the tokens behind them.
#[tactic(auto, unfolding(crate::specs::DeclarationDescent::params_at))]
pub fn params(alloc: Global, tokens: &[Token], budget: u32) -> Result<(Vec<Param>, &[Token]), Stop>
    requires { budget ≤ 256 }
    ensures { Gives (λ x. (map param_tree x.0.items, x.1.now)) result (params_at budget tokens.now) }
{
    if begins(tokens, Mark::CloseParen) {
        return Ok((Vec::new(alloc), tokens));
    }
    if begins_key(tokens, Key::Void) {
        return Ok((Vec::new(alloc), skip(tokens)));
    }
    some_params(alloc, tokens, budget)
}
