//! The marks and how they are spelled.
ghost use Rattle.std.specs.Prelude.{◌≡◌};
ghost use Rattle.csub_lex.specs.Marks.{mark_text};
ghost use Rattle.csub_lex.specs.Finding.{first_mark};

use crate::token::Mark;

/// All marks, no longer one behind a shorter one.
const MARKS: [Mark; 44] = [
    Mark::ShiftLeftEqual,
    Mark::ShiftRightEqual,
    Mark::PlusPlus,
    Mark::MinusMinus,
    Mark::ShiftLeft,
    Mark::ShiftRight,
    Mark::LessEqual,
    Mark::GreaterEqual,
    Mark::EqualEqual,
    Mark::BangEqual,
    Mark::AndAnd,
    Mark::BarBar,
    Mark::PlusEqual,
    Mark::MinusEqual,
    Mark::StarEqual,
    Mark::SlashEqual,
    Mark::PercentEqual,
    Mark::AmpersandEqual,
    Mark::BarEqual,
    Mark::CaretEqual,
    Mark::OpenBrace,
    Mark::CloseBrace,
    Mark::OpenParen,
    Mark::CloseParen,
    Mark::OpenBracket,
    Mark::CloseBracket,
    Mark::Semicolon,
    Mark::Comma,
    Mark::Colon,
    Mark::Question,
    Mark::Dot,
    Mark::Tilde,
    Mark::Plus,
    Mark::Minus,
    Mark::Star,
    Mark::Slash,
    Mark::Percent,
    Mark::Ampersand,
    Mark::Bar,
    Mark::Caret,
    Mark::Bang,
    Mark::Less,
    Mark::Greater,
    Mark::Equal,
];

impl Mark {
    /// The spelling of the mark (C11 6.4.6).
    pub fn text(self) -> &'static [u8]
        ensures { result.now ≡ mark_text self }
    {
        match self {
            Mark::OpenBrace => b"{",
            Mark::CloseBrace => b"}",
            Mark::OpenParen => b"(",
            Mark::CloseParen => b")",
            Mark::OpenBracket => b"[",
            Mark::CloseBracket => b"]",
            Mark::Semicolon => b";",
            Mark::Comma => b",",
            Mark::Colon => b":",
            Mark::Question => b"?",
            Mark::Dot => b".",
            Mark::Tilde => b"~",
            Mark::Plus => b"+",
            Mark::Minus => b"-",
            Mark::Star => b"*",
            Mark::Slash => b"/",
            Mark::Percent => b"%",
            Mark::Ampersand => b"&",
            Mark::Bar => b"|",
            Mark::Caret => b"^",
            Mark::Bang => b"!",
            Mark::Less => b"<",
            Mark::Greater => b">",
            Mark::Equal => b"=",
            Mark::PlusPlus => b"++",
            Mark::MinusMinus => b"--",
            Mark::ShiftLeft => b"<<",
            Mark::ShiftRight => b">>",
            Mark::LessEqual => b"<=",
            Mark::GreaterEqual => b">=",
            Mark::EqualEqual => b"==",
            Mark::BangEqual => b"!=",
            Mark::AndAnd => b"&&",
            Mark::BarBar => b"||",
            Mark::PlusEqual => b"+=",
            Mark::MinusEqual => b"-=",
            Mark::StarEqual => b"*=",
            Mark::SlashEqual => b"/=",
            Mark::PercentEqual => b"%=",
            Mark::AmpersandEqual => b"&=",
            Mark::BarEqual => b"|=",
            Mark::CaretEqual => b"^=",
            Mark::ShiftLeftEqual => b"<<=",
            Mark::ShiftRightEqual => b">>=",
        }
    }
}

/// The longest mark that the bytes begin with.
pub fn mark_of(bytes: &[u8]) -> Option<Mark>
    ensures { result ≡ first_mark bytes.now }
{
    for mark in MARKS {
        if bytes.starts_with(mark.text()) {
            return Some(mark);
        }
    }
    None
}
