//! What declarations begin with: the types of numbers and structs (C11 6.7.2).
ghost use Rattle.std.specs.Prelude.{◌≡◌};
ghost use Rattle.csub_expr.specs.Answers.{Gives};
ghost use Rattle.csub_stmt.specs.Openings.{begins_name, begins_base};
ghost use Rattle.csub_stmt.specs.DeclarationDescent.{unsigned_at, numeric_at, base_at};

use csub_expr::look::{begins_key, begins_number, expect_name, head_span, skip};
use csub_expr::stop::Stop;
use csub_lex::{Key, Token, TokenKind};
use csub_tree::TypeName;

/// Whether the first token is a name.
#[tactic(auto, unfolding(crate::specs::Openings::begins_name))]
pub fn begins_name(tokens: &[Token]) -> bool
    ensures { result ≡ begins_name tokens.now }
{
    match tokens {
        [] => false,
        [token, ..] => match token.kind {
            TokenKind::Name(_) => true,
            _ => false,
        },
    }
}

/// Whether a declaration begins (C11 6.7.2).
#[tactic(auto, unfolding(crate::specs::Openings::begins_base))]
pub(crate) fn begins_base(tokens: &[Token]) -> bool
    ensures { result ≡ begins_base tokens.now }
{
    begins_key(tokens, Key::Struct) || begins_number(tokens)
}

// Behind `unsigned`, which ended at `end`.
#[tactic(auto, unfolding(crate::specs::DeclarationDescent::unsigned_at))]
fn unsigned(tokens: &[Token], end: u32) -> Result<(TypeName, u32, &[Token]), Stop>
    ensures { Gives (λ x. ((x.0, x.1), x.2.now)) result (unsigned_at end tokens.now) }
{
    if begins_key(tokens, Key::Int) {
        return Ok((TypeName::Unsigned, head_span(tokens).end, skip(tokens)));
    }
    Ok((TypeName::Unsigned, end, tokens))
}

/// A number type, where it ends, and the tokens behind it.
#[tactic(auto, unfolding(crate::specs::DeclarationDescent::numeric_at))]
pub fn numeric(tokens: &[Token]) -> Result<(TypeName, u32, &[Token]), Stop>
    ensures { Gives (λ x. ((x.0, x.1), x.2.now)) result (numeric_at tokens.now) }
{
    let end = head_span(tokens).end;
    if begins_key(tokens, Key::Char) {
        return Ok((TypeName::Char, end, skip(tokens)));
    }
    if begins_key(tokens, Key::Int) {
        return Ok((TypeName::Int, end, skip(tokens)));
    }
    if begins_key(tokens, Key::Unsigned) {
        return unsigned(skip(tokens), end);
    }
    Err(Stop::At(tokens.len()))
}

/// The type that a declaration begins with, where it ends, and the tokens behind it.
#[tactic(auto, unfolding(crate::specs::DeclarationDescent::base_at, crate::specs::DeclarationDescent::tag_at))]
pub(crate) fn base(tokens: &[Token]) -> Result<(TypeName, u32, &[Token]), Stop>
    ensures { Gives (λ x. ((x.0, x.1), x.2.now)) result (base_at tokens.now) }
{
    if begins_key(tokens, Key::Struct) {
        let (name, rest) = expect_name(skip(tokens))?;
        let end = name.span.end;
        return Ok((TypeName::Struct(name), end, rest));
    }
    numeric(tokens)
}
