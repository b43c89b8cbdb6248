//! The descent of declarations (C11 6.7). `budget` is the depth that is left for what stands inside.
ghost use Rattle.std.specs.Prelude.{◌≡◌, ◌≤◌, ◌&&◌, nat_le, suc, [], ◌∷◌, length, map, IfOk, IfErr};
ghost use Rattle.csub_lex.specs.declared.token.Mark.TheVariants.{Equal};
ghost use Rattle.csub_tree.specs.Expressions.{expr_tree};
ghost use Rattle.csub_tree.specs.Declarations.{declarator_tree, declare_tree};
ghost use Rattle.csub_expr.specs.Looks.{begins};
ghost use Rattle.csub_expr.specs.Answers.{Gives};
ghost use Rattle.csub_expr.specs.declared.stop.Stop.TheVariants.{Memory};
ghost use Rattle.csub_expr.specs.ListDescent.{separated, repeated, never};
ghost use Rattle.csub_stmt.specs.DeclarationDescent.{following, length_at, no_length, slot_after, var_after, slot_at, var_at, declare_end, decl_after, decl_behind, decl_at, field_at};

use crate::base::base;
use crate::node::unboxed;
use csub_expr::expression::conditional_boxed;
use csub_expr::initialiser::init;
use csub_expr::look::{begins, expect, expect_name, head_span, skip};
use csub_expr::stop::Stop;
use csub_lex::{Mark, Token};
use csub_text::Span;
use csub_tree::{Declarator, Declare, Expr, Name, TypeName};
use std::alloc::Global;

#[tactic(auto, unfolding(crate::specs::DeclarationDescent::length_at))]
fn length(alloc: Global, tokens: &[Token], budget: u32) -> Result<(Box<Expr>, &[Token]), Stop>
    requires { budget ≤ 256 }
    ensures { Gives (λ x. (expr_tree x.0.value, x.1.now)) result (length_at budget tokens.now) }
{
    let (_, rest) = expect(tokens, Mark::OpenBracket)?;
    let (e, rest) = conditional_boxed(alloc, rest, budget)?;
    let (_, rest) = expect(rest, Mark::CloseBracket)?;
    Ok((e, rest))
}

// No length comes, or no depth is left for one.
fn no_length(tokens: &[Token], budget: u32) -> bool
    ensures { result ≡ no_length budget tokens.now }
{
    !(begins(tokens, Mark::OpenBracket) && 1 <= budget)
}

fn lengths(alloc: Global, tokens: &[Token], budget: u32) -> Result<(Vec<Expr>, &[Token]), Stop>
    requires { budget ≤ 256 }
    ensures { Gives (λ x. (map expr_tree x.0.items, x.1.now)) result (repeated (length_at budget) (no_length budget) (suc (length tokens.now)) tokens.now) }
{
    let mut all = Vec::new(alloc);
    let mut rest = tokens;
    'each: while !no_length(rest, budget) {
        let (one, after) = length(alloc, rest, budget)?;
        all.push(unboxed(one))?;
        rest = after;
    }
    Ok((all, rest))
}

#[tactic(auto, unfolding(crate::specs::DeclarationDescent::slot_after))]
fn slot_after(
    alloc: Global,
    name: Name,
    tokens: &[Token],
    budget: u32,
) -> Result<(Declarator, &[Token]), Stop>
    requires { budget ≤ 256 }
    ensures { Gives (λ x. (declarator_tree x.0, x.1.now)) result (slot_after budget name tokens.now) }
{
    let (dims, rest) = lengths(alloc, tokens, budget)?;
    let init = None;
    Ok((Declarator { name, dims, init }, rest))
}

// A value comes, and depth is left for it and an expression in it.
fn has_value(tokens: &[Token], budget: u32) -> bool
    ensures { result ≡ (begins Equal tokens.now && nat_le 2 budget) }
{
    begins(tokens, Mark::Equal) && 2 <= budget
}

#[tactic(auto, unfolding(crate::specs::DeclarationDescent::var_after, crate::specs::DeclarationDescent::slot_after, crate::specs::DeclarationDescent::value_after))]
fn var_after(
    alloc: Global,
    name: Name,
    tokens: &[Token],
    budget: u32,
) -> Result<(Declarator, &[Token]), Stop>
    requires { budget ≤ 256 }
    ensures { Gives (λ x. (declarator_tree x.0, x.1.now)) result (var_after budget name tokens.now) }
{
    let (dims, rest) = lengths(alloc, tokens, budget)?;
    if has_value(rest, budget) {
        let (value, rest) = init(alloc, skip(rest), budget)?;
        let init = Some(value);
        return Ok((Declarator { name, dims, init }, rest));
    }
    let init = None;
    Ok((Declarator { name, dims, init }, rest))
}

#[tactic(auto, unfolding(crate::specs::DeclarationDescent::slot_at))]
fn slot(alloc: Global, tokens: &[Token], budget: u32) -> Result<(Declarator, &[Token]), Stop>
    requires { budget ≤ 256 }
    ensures { Gives (λ x. (declarator_tree x.0, x.1.now)) result (slot_at budget tokens.now) }
{
    let (name, rest) = expect_name(tokens)?;
    slot_after(alloc, name, rest, budget)
}

#[tactic(auto, unfolding(crate::specs::DeclarationDescent::var_at))]
fn var(alloc: Global, tokens: &[Token], budget: u32) -> Result<(Declarator, &[Token]), Stop>
    requires { budget ≤ 256 }
    ensures { Gives (λ x. (declarator_tree x.0, x.1.now)) result (var_at budget tokens.now) }
{
    let (name, rest) = expect_name(tokens)?;
    var_after(alloc, name, rest, budget)
}

fn alone(alloc: Global, first: Declarator) -> Result<Vec<Declarator>, Stop>
    ensures ok { IfOk result (λ all. map declarator_tree all.items ≡ declarator_tree first ∷ []) }
    ensures err { IfErr result (λ e. e ≡ Memory) }
{
    let mut all = Vec::new(alloc);
    all.push(first)?;
    Ok(all)
}

// The declarators behind the first, which was read.
fn vars(
    alloc: Global,
    first: Declarator,
    tokens: &[Token],
    budget: u32,
) -> Result<(Vec<Declarator>, &[Token]), Stop>
    requires { budget ≤ 256 }
    ensures { Gives (λ x. (map declarator_tree x.0.items, x.1.now)) result (following (var_at budget) (declarator_tree first) tokens.now) }
{
    let mut all = alone(alloc, first)?;
    let mut rest = tokens;
    'each: while begins(rest, Mark::Comma) {
        let (one, after) = var(alloc, skip(rest), budget)?;
        all.push(one)?;
        rest = after;
    }
    Ok((all, rest))
}

fn slots(alloc: Global, tokens: &[Token], budget: u32) -> Result<(Vec<Declarator>, &[Token]), Stop>
    requires { budget ≤ 256 }
    ensures { Gives (λ x. (map declarator_tree x.0.items, x.1.now)) result (separated (slot_at budget) never (suc (length tokens.now)) tokens.now) }
{
    let mut all = Vec::new(alloc);
    let mut rest = tokens;
    'each: loop {
        let (one, after) = slot(alloc, rest, budget)?;
        all.push(one)?;
        if !begins(after, Mark::Comma) {
            return Ok((all, after));
        }
        rest = skip(after);
    }
}

#[tactic(auto, unfolding(crate::specs::DeclarationDescent::declare_end))]
fn declare_end(
    base: TypeName,
    start: u32,
    vars: Vec<Declarator>,
    tokens: &[Token],
    budget: u32,
) -> Result<(Declare, &[Token]), Stop>
    ensures { Gives (λ x. (declare_tree x.0, x.1.now)) result (declare_end budget base start (map declarator_tree vars.items) tokens.now) }
{
    let (semicolon, rest) = expect(tokens, Mark::Semicolon)?;
    let span = Span {
        start,
        end: semicolon.end,
    };
    Ok((Declare { base, vars, span }, rest))
}

/// A declaration whose type, which began at `start`, and first name were read.
#[tactic(auto, unfolding(crate::specs::DeclarationDescent::decl_after))]
pub fn decl_after(
    alloc: Global,
    base: TypeName,
    start: u32,
    name: Name,
    tokens: &[Token],
    budget: u32,
) -> Result<(Declare, &[Token]), Stop>
    requires { budget ≤ 256 }
    ensures { Gives (λ x. (declare_tree x.0, x.1.now)) result (decl_after budget base start name tokens.now) }
{
    let (first, rest) = var_after(alloc, name, tokens, budget)?;
    let (all, rest) = vars(alloc, first, rest, budget)?;
    declare_end(base, start, all, rest, budget)
}

/// A declaration whose type, which began at `start`, was read.
#[tactic(auto, unfolding(crate::specs::DeclarationDescent::decl_behind))]
pub fn decl_behind(
    alloc: Global,
    base: TypeName,
    start: u32,
    tokens: &[Token],
    budget: u32,
) -> Result<(Declare, &[Token]), Stop>
    requires { budget ≤ 256 }
    ensures { Gives (λ x. (declare_tree x.0, x.1.now)) result (decl_behind budget base start tokens.now) }
{
    let (name, rest) = expect_name(tokens)?;
    decl_after(alloc, base, start, name, rest, budget)
}

/// A declaration (C11 6.7), and the tokens behind it.
#[tactic(auto, unfolding(crate::specs::DeclarationDescent::decl_at, crate::specs::DeclarationDescent::decl_from))]
pub fn decl(alloc: Global, tokens: &[Token], budget: u32) -> Result<(Declare, &[Token]), Stop>
    requires { budget ≤ 256 }
    ensures { Gives (λ x. (declare_tree x.0, x.1.now)) result (decl_at budget tokens.now) }
{
    let start = head_span(tokens).start;
    let (base, _, rest) = base(tokens)?;
    decl_behind(alloc, base, start, rest, budget)
}

/// A declaration of members of a struct (C11 6.7.2.1), and the tokens behind it.
#[tactic(auto, unfolding(crate::specs::DeclarationDescent::field_at, crate::specs::DeclarationDescent::field_from, crate::specs::DeclarationDescent::field_behind))]
pub fn field(alloc: Global, tokens: &[Token], budget: u32) -> Result<(Declare, &[Token]), Stop>
    requires { budget ≤ 256 }
    ensures { Gives (λ x. (declare_tree x.0, x.1.now)) result (field_at budget tokens.now) }
{
    let start = head_span(tokens).start;
    let (base, _, rest) = base(tokens)?;
    let (all, rest) = slots(alloc, rest, budget)?;
    declare_end(base, start, all, rest, budget)
}
