//! The descent of units, and the public call (C11 6.9).
ghost use Rattle.std.specs.Prelude.{◌≡◌, ◌≤◌, suc, length, map, MatchResult, IfOk, IfErr};
ghost use Rattle.csub_tree.specs.Units.{Source, item_tree, unit_tree};
ghost use Rattle.csub_tree.specs.Depth.{unit_depth};
ghost use Rattle.csub_tree.specs.Spells.{Spells};
ghost use Rattle.csub_expr.specs.Answers.{Gives};
ghost use Rattle.csub_expr.specs.ListDescent.{repeated};
ghost use Rattle.csub_parse.specs.UnitDescent.{at_end, read_item, read_unit};
ghost use Rattle.csub_parse.specs.Syntax.{Within, HasCause};
ghost use Rattle.csub_parse.specs.declared.error.ParseError.TheVariants.{Memory};

use crate::error::ParseError;
use crate::item::next_item;
use csub_expr::stop::Stop;
use csub_lex::Token;
use csub_tree::{Item, Unit};
use std::alloc::Global;

// The items up to the end, each of at most the depth `budget`.
fn items(alloc: Global, tokens: &[Token], budget: u32) -> Result<(Vec<Item>, &[Token]), Stop>
    requires { budget ≤ 256 }
    ensures { Gives (λ x. (map item_tree x.0.items, x.1.now)) result (repeated (read_item budget) at_end (suc (length tokens.now)) tokens.now) }
{
    let mut all = Vec::new(alloc);
    let mut rest = tokens;
    'each: while !at_end(rest) {
        let (one, after) = next_item(alloc, rest, budget)?;
        all.push(one)?;
        rest = after;
    }
    Ok((all, rest))
}

// Whether no token is left.
#[tactic(auto, unfolding(crate::specs::UnitDescent::at_end))]
fn at_end(tokens: &[Token]) -> bool
    ensures { result ≡ at_end tokens.now }
{
    match tokens {
        [] => true,
        [_, ..] => false,
    }
}

// A unit of at most the depth 256.
#[tactic(auto, unfolding(crate::specs::UnitDescent::read_unit))]
fn whole(alloc: Global, tokens: &[Token]) -> Result<(Unit, &[Token]), Stop>
    ensures { Gives (λ x. (unit_tree x.0, x.1.now)) result (read_unit 256 tokens.now) }
{
    let (items, rest) = items(alloc, tokens, 255)?;
    Ok((Unit { items }, rest))
}

/// The unit that the tokens spell (C11 6.9), where it is no deeper than 256.
///
/// # Errors
///
/// `Syntax` with the place of the token that no such unit can have behind those before it, or with the count of the
/// tokens where they end too early; `Memory` where memory was wanted.
pub fn parse(alloc: Global, tokens: &[Token]) -> Result<Unit, ParseError>
    requires { length tokens.now ≤ 1048576 }
    // The tokens spell the unit.
    ensures unit { IfOk result (λ unit. Spells (unit_tree unit) tokens.now) }
    // It is no deeper than 256.
    ensures depth { IfOk result (λ unit. unit_depth (unit_tree unit) ≤ 256) }
    // They spell no other such unit, and where they spell one, it is the answer or memory was wanted.
    ensures only { (u : Source) → Within 256 u tokens.now → MatchResult result (λ unit. unit_tree unit ≡ u) (λ e. e ≡ Memory) }
    // Where each error comes.
    ensures cause { IfErr result (HasCause 256 tokens.now) }
{
    match whole(alloc, tokens) {
        Ok((unit, _)) => Ok(unit),
        Err(Stop::Memory) => Err(ParseError::Memory),
        Err(Stop::At(left)) => {
            let at = tokens.len() - left;
            Err(ParseError::Syntax(at as u32))
        }
    }
}
