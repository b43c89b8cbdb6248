//! The descent of initialisers (C11 6.7.9).
ghost use Rattle.std.specs.Prelude.{◌≡◌, ◌≤◌, suc, List, length, map, Ok, Err};
ghost use Rattle.csub_lex.specs.declared.token.Mark.TheVariants.{CloseBrace};
ghost use Rattle.csub_tree.specs.Declarations.{init_tree, inits_of};
ghost use Rattle.csub_tree.specs.Declarations as tree;
ghost use Rattle.csub_expr.specs.Looks.{begins};
ghost use Rattle.csub_expr.specs.Answers.{Gives};
ghost use Rattle.csub_expr.specs.ListDescent.{separated};
ghost use Rattle.csub_expr.specs.InitDescent.{read_init, listed_at};

use crate::expression::assign;
use crate::look::{begins, expect, head_span, skip};
use crate::stop::Stop;
use csub_lex::{Mark, Token};
use csub_text::Span;
use csub_tree::Init;
use std::alloc::Global;

fn list_node(start: u32, all: Vec<Init>, end: u32) -> Init
    ensures { init_tree result ≡ tree.Listed (inits_of (map init_tree all.items)) (record { start = start; end = end }) }
{
    Init::List(all, Span { start, end })
}

// Initialisers, at least one, and a comma more where the closing brace comes behind it.
#[cycle(init)]
fn inits(alloc: Global, tokens: &[Token], budget: u32) -> Result<(Vec<Init>, &[Token]), Stop>
    requires { budget ≤ 256 }
    ensures { Gives (λ x. (map init_tree x.0.items, x.1.now)) result (separated (read_init budget) (begins CloseBrace) (suc (length tokens.now)) tokens.now) }
{
    let mut all = Vec::new(alloc);
    let mut rest = tokens;
    'each: loop {
        let (one, after) = init(alloc, rest, budget)?;
        all.push(one)?;
        if !begins(after, Mark::Comma) {
            return Ok((all, after));
        }
        rest = skip(after);
        if begins(rest, Mark::CloseBrace) {
            return Ok((all, rest));
        }
    }
}

// Behind an opening brace, which began at `start`.
#[cycle(init)]
#[tactic(auto, unfolding(crate::specs::InitDescent::listed_at))]
fn listed(
    alloc: Global,
    start: u32,
    tokens: &[Token],
    budget: u32,
) -> Result<(Init, &[Token]), Stop>
    requires { budget ≤ 256 }
    ensures { Gives (λ x. (init_tree x.0, x.1.now)) result (listed_at (read_init budget) budget start tokens.now) }
{
    let (all, rest) = inits(alloc, tokens, budget)?;
    let (close, rest) = expect(rest, Mark::CloseBrace)?;
    Ok((list_node(start, all, close.end), rest))
}

/// An initialiser (C11 6.7.9) of at most the depth `budget`, and the tokens behind it. An opening brace is refused where
/// no depth is left for an initialiser in it and that one's expression.
#[cycle(init)]
#[tactic(auto, unfolding(crate::specs::InitDescent::read_init, crate::specs::InitDescent::init_at))]
pub fn init(alloc: Global, tokens: &[Token], budget: u32) -> Result<(Init, &[Token]), Stop>
    requires { budget ≤ 256 }
    ensures { Gives (λ x. (init_tree x.0, x.1.now)) result (read_init budget tokens.now) }
{
    if budget == 0 {
        return Err(Stop::At(tokens.len()));
    }
    if begins(tokens, Mark::OpenBrace) {
        if budget < 3 {
            return Err(Stop::At(tokens.len()));
        }
        let start = head_span(tokens).start;
        return listed(alloc, start, skip(tokens), budget - 1);
    }
    let (e, _, rest) = assign(alloc, tokens, budget - 1)?;
    Ok((Init::One(e), rest))
}
