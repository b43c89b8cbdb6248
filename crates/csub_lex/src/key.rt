//! The keywords and how they are spelled.
ghost use Rattle.std.specs.Prelude.{◌≡◌};
ghost use Rattle.csub_lex.specs.Words.{key_text};
ghost use Rattle.csub_lex.specs.Finding.{key_of};

use crate::token::Key;

/// All keywords.
const KEYS: [Key; 44] = [
    Key::Auto,
    Key::Break,
    Key::Case,
    Key::Char,
    Key::Const,
    Key::Continue,
    Key::Default,
    Key::Do,
    Key::Double,
    Key::Else,
    Key::Enum,
    Key::Extern,
    Key::Float,
    Key::For,
    Key::Goto,
    Key::If,
    Key::Inline,
    Key::Int,
    Key::Long,
    Key::Register,
    Key::Restrict,
    Key::Return,
    Key::Short,
    Key::Signed,
    Key::Sizeof,
    Key::Static,
    Key::Struct,
    Key::Switch,
    Key::Typedef,
    Key::Union,
    Key::Unsigned,
    Key::Void,
    Key::Volatile,
    Key::While,
    Key::Alignas,
    Key::Alignof,
    Key::Atomic,
    Key::Bool,
    Key::Complex,
    Key::Generic,
    Key::Imaginary,
    Key::Noreturn,
    Key::StaticAssert,
    Key::ThreadLocal,
];

impl Key {
    /// The spelling of the keyword (C11 6.4.1).
    pub fn text(self) -> &'static [u8]
        ensures { result.now ≡ key_text self }
    {
        match self {
            Key::Auto => b"auto",
            Key::Break => b"break",
            Key::Case => b"case",
            Key::Char => b"char",
            Key::Const => b"const",
            Key::Continue => b"continue",
            Key::Default => b"default",
            Key::Do => b"do",
            Key::Double => b"double",
            Key::Else => b"else",
            Key::Enum => b"enum",
            Key::Extern => b"extern",
            Key::Float => b"float",
            Key::For => b"for",
            Key::Goto => b"goto",
            Key::If => b"if",
            Key::Inline => b"inline",
            Key::Int => b"int",
            Key::Long => b"long",
            Key::Register => b"register",
            Key::Restrict => b"restrict",
            Key::Return => b"return",
            Key::Short => b"short",
            Key::Signed => b"signed",
            Key::Sizeof => b"sizeof",
            Key::Static => b"static",
            Key::Struct => b"struct",
            Key::Switch => b"switch",
            Key::Typedef => b"typedef",
            Key::Union => b"union",
            Key::Unsigned => b"unsigned",
            Key::Void => b"void",
            Key::Volatile => b"volatile",
            Key::While => b"while",
            Key::Alignas => b"_Alignas",
            Key::Alignof => b"_Alignof",
            Key::Atomic => b"_Atomic",
            Key::Bool => b"_Bool",
            Key::Complex => b"_Complex",
            Key::Generic => b"_Generic",
            Key::Imaginary => b"_Imaginary",
            Key::Noreturn => b"_Noreturn",
            Key::StaticAssert => b"_Static_assert",
            Key::ThreadLocal => b"_Thread_local",
        }
    }
}

/// The keyword of this spelling.
pub fn key_of(text: &[u8]) -> Option<Key>
    ensures { result ≡ key_of text.now }
{
    for key in KEYS {
        if text == key.text() {
            return Some(key);
        }
    }
    None
}
