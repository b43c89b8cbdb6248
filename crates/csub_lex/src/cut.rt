//! A whole source cut into tokens.
ghost use Rattle.std.specs.Prelude.{◌≡◌, ℕ, ◌≤◌, ◌⊎◌, List, [], length, IfOk, IfErr, MatchResult};
ghost use Rattle.csub_lex.specs.declared.error.LexKind.{LexKind};
ghost use Rattle.csub_lex.specs.declared.error.LexError.TheVariants.{Memory};
ghost use Rattle.csub_lex.specs.declared.token.Token.{Token};
ghost use Rattle.csub_lex.specs.Tokens.{Tokens, Spelled, Fault, Names, InSource, error_of};

use crate::bytes::{from, front};
use crate::error::{LexError, LexKind};
use crate::pieces::piece;
use crate::step::Step;
use crate::token::Token;
use csub_text::Span;
use std::alloc::Global;

/// The tokens of a source in their order, each with the bytes that spell it.
///
/// A source is cut from the left into blanks, comments, include lines and tokens (C11 6.4), each as long as the rules allow. There is
/// one such cut, or one first place where it can't go on; the errors name that place. A token has a byte or more, so there are at most
/// as many tokens as bytes.
pub fn lex(alloc: Global, source: &[u8]) -> Result<Vec<Token>, LexError>
    requires { length source.now ≤ 1048576 }
    ensures tokens { IfOk result (λ tokens. Tokens [] source.now tokens.items) }
    ensures few { IfOk result (λ tokens. length tokens.items ≤ length source.now) }
    ensures spans { IfOk result (λ tokens. Spelled source.now 0 tokens.items) }
    ensures fault { IfErr result (λ error. Names error source.now) }
    ensures place { IfErr result (λ error. InSource error source.now) }
    ensures only { (tokens : List Token) → Tokens [] source.now tokens → MatchResult result (λ found. found.items ≡ tokens) (λ error. error ≡ Memory) }
    ensures sure { (kind : LexKind) (at : ℕ) → Fault [] source.now kind at → MatchResult result (λ _. ⊥) (λ error. (error ≡ error_of kind at) ⊎ (error ≡ Memory)) }
{
    let mut tokens = Vec::new(alloc);
    let mut at = 0;
    'cuts: while at < source.len() {
        match piece(alloc, front(source, at), from(source, at)) {
            Ok(Step::Skip(len)) => at += len,
            Ok(Step::Token(kind, len)) => {
                let span = Span {
                    start: at as u32,
                    end: (at + len) as u32,
                };
                match tokens.push(Token { kind, span }) {
                    Ok(()) => at += len,
                    Err(_) => return Err(LexError::Memory),
                }
            }
            Ok(Step::Stuck(kind)) => return Err(error_at(kind, at as u32)),
            Err(_) => return Err(LexError::Memory),
        }
    }
    Ok(tokens)
}

/// The error that names a fault at a place.
fn error_at(kind: LexKind, at: u32) -> LexError
    ensures { result ≡ error_of kind at }
{
    match kind {
        LexKind::Byte => LexError::Byte(at),
        LexKind::Number => LexError::Number(at),
        LexKind::Directive => LexError::Directive(at),
    }
}
