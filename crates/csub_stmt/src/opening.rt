//! What a statement begins with.
ghost use Rattle.std.specs.Prelude.{◌≡◌};
ghost use Rattle.csub_stmt.specs.Openings.{opening_at};

use csub_lex::{Key, Mark, Token, TokenKind};

/// What a statement begins with (C11 6.8).
#[derive(Clone, Copy, Debug, PartialEq, Eq)]
pub enum Opening {
    /// `{`
    Brace,
    /// `;`
    Semicolon,
    /// `if`
    If,
    /// `while`
    While,
    /// `do`
    Do,
    /// `for`
    For,
    /// `switch`
    Switch,
    /// `break`
    Break,
    /// `continue`
    Continue,
    /// `goto`
    Goto,
    /// `return`
    Return,
    /// Whatever else: a label or an expression.
    Plain,
}

/// What a statement that begins with these tokens is.
#[tactic(auto, unfolding(crate::specs::Openings::opening_at))]
pub fn opening_at(tokens: &[Token]) -> Opening
    ensures { result ≡ opening_at tokens.now }
{
    match tokens {
        [] => Opening::Plain,
        [token, ..] => match token.kind {
            TokenKind::Mark(Mark::OpenBrace) => Opening::Brace,
            TokenKind::Mark(Mark::Semicolon) => Opening::Semicolon,
            TokenKind::Key(Key::If) => Opening::If,
            TokenKind::Key(Key::While) => Opening::While,
            TokenKind::Key(Key::Do) => Opening::Do,
            TokenKind::Key(Key::For) => Opening::For,
            TokenKind::Key(Key::Switch) => Opening::Switch,
            TokenKind::Key(Key::Break) => Opening::Break,
            TokenKind::Key(Key::Continue) => Opening::Continue,
            TokenKind::Key(Key::Goto) => Opening::Goto,
            TokenKind::Key(Key::Return) => Opening::Return,
            _ => Opening::Plain,
        },
    }
}
