//! The first stages of a source: its tokens, and its unit.
ghost use Rattle.std.specs.Prelude.{◌≡◌, ◌+◌, ◌≤◌, [], IfErr, IfOk, List, MatchResult, length};
ghost use Rattle.csub_lex.specs.declared.token.Token.{Token};
ghost use Rattle.csub_lex.specs.Tokens.{Tokens};
ghost use Rattle.csub_tree.specs.Units.{Source, unit_tree};
ghost use Rattle.csub_parse.specs.Syntax as syntax;
ghost use Rattle.csub_answers.specs.Accepted.{HasCause, place_of};
ghost use Rattle.csub_answers.specs.declared.error.SourceError.TheVariants.{Lex, Memory};

use crate::error::SourceError;
use csub_lex::{LexError, LexKind, Token, lex};
use csub_parse::{ParseError, parse};
use csub_text::Span;
use csub_tree::Unit;
use std::alloc::Global;

/// A fault of the cut, with its byte.
fn fault_at(kind: LexKind, at: u32) -> SourceError
    requires { at ≤ 1048576 }
    ensures { result ≡ Lex kind (record { start = at; end = at + 1 }) }
{
    SourceError::Lex(
        kind,
        Span {
            start: at,
            end: at + 1,
        },
    )
}

/// The tokens of a source, which has at most 1,048,576 bytes. It takes time in proportion to the source.
///
/// # Errors
///
/// `Lex` where it can't be cut into tokens, `Memory` where memory was wanted.
pub fn tokens_of(alloc: Global, source: &[u8]) -> Result<Vec<Token>, SourceError>
    requires { length source.now ≤ 1048576 }
    ensures tokens { IfOk result (λ tokens. Tokens [] source.now tokens.items) }
    ensures few { IfOk result (λ tokens. length tokens.items ≤ length source.now) }
    ensures only { (tokens : List Token) → Tokens [] source.now tokens → MatchResult result (λ found. found.items ≡ tokens) (λ error. error ≡ Memory) }
    ensures cause { IfErr result (HasCause source.now) }
{
    match lex(alloc, source) {
        Ok(tokens) => Ok(tokens),
        Err(LexError::Byte(at)) => Err(fault_at(LexKind::Byte, at)),
        Err(LexError::Number(at)) => Err(fault_at(LexKind::Number, at)),
        Err(LexError::Directive(at)) => Err(fault_at(LexKind::Directive, at)),
        Err(LexError::Memory) => Err(SourceError::Memory),
    }
}

/// The place of a token by its number; behind the last one the empty place at the end of the source.
fn place_of(source: &[u8], tokens: &[Token], token: u32) -> Span
    requires short { length source.now ≤ 1048576 }
    requires within { token ≤ length tokens.now }
    ensures { result ≡ place_of source.now tokens.now token }
{
    match &tokens[token as usize..] {
        [] => Span {
            start: source.len() as u32,
            end: source.len() as u32,
        },
        [first, ..] => first.span,
    }
}

/// The unit that the tokens of a source spell. It takes time in proportion to the source.
///
/// # Errors
///
/// `Syntax` where they spell no unit of at most the depth 256, `Memory` where memory was wanted.
pub fn unit_of(alloc: Global, source: &[u8], tokens: &[Token]) -> Result<Unit, SourceError>
    requires short { length source.now ≤ 1048576 }
    requires few { length tokens.now ≤ length source.now }
    requires cut { Tokens [] source.now tokens.now }
    ensures unit { IfOk result (λ unit. syntax.Within 256 (unit_tree unit) tokens.now) }
    ensures only { (u : Source) → syntax.Within 256 u tokens.now → MatchResult result (λ unit. unit_tree unit ≡ u) (λ error. error ≡ Memory) }
    ensures cause { IfErr result (HasCause source.now) }
{
    match parse(alloc, tokens) {
        Ok(unit) => Ok(unit),
        Err(ParseError::Syntax(token)) => {
            Err(SourceError::Syntax(place_of(source, tokens, token)))
        }
        Err(ParseError::Memory) => Err(SourceError::Memory),
    }
}
