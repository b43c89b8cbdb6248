//! Why a source isn't accepted, as it is told.
ghost use Rattle.std.specs.Prelude.{◌≡◌, ◌++◌, OnOk};
ghost use Rattle.csub_answers.specs.Accepted.{HasCause};
ghost use Rattle.command_refusals.specs.Causes.{at_place, kind_word, limit_word, source_cause, source_text};

use csub_answers::{LexKind, SourceError};
use line_text::push_decimal;
use source_place::{Place, place_of, push_place};
use std::alloc::AllocError;

/// Why a source isn't accepted.
#[derive(Clone, Copy, Debug, PartialEq, Eq)]
pub enum SourceCause {
    /// It has more than 1,048,576 bytes.
    TooLong,
    /// No token begins at a place, where this is missing.
    Lex(LexKind, Place),
    /// No unit goes on at a place.
    Syntax(Place),
    /// A rule is broken at a place.
    Rule(u8, Place),
    /// A limit is passed by a count.
    Limit(u8, u64),
}

/// What is told of an error of a source; nothing of want of memory.
pub fn source_cause(source: &[u8], error: SourceError) -> Option<SourceCause>
    requires { HasCause source.now error }
    ensures { result ≡ source_cause source.now error }
{
    match error {
        SourceError::TooLong(_) => Some(SourceCause::TooLong),
        SourceError::Lex(kind, at) => Some(SourceCause::Lex(kind, place_of(source, at))),
        SourceError::Syntax(at) => Some(SourceCause::Syntax(place_of(source, at))),
        SourceError::Meaning(rule, at) => Some(SourceCause::Rule(rule, place_of(source, at))),
        SourceError::Limit(limit, count) => Some(SourceCause::Limit(limit, count)),
        SourceError::Memory => None,
    }
}

fn kind_word(kind: LexKind) -> &'static [u8]
    ensures { result.now ≡ kind_word kind }
{
    match kind {
        LexKind::Byte => b"byte",
        LexKind::Number => b"number",
        LexKind::Directive => b"directive",
    }
}

fn limit_word(limit: u8) -> &'static [u8]
    ensures { result.now ≡ limit_word limit }
{
    match limit {
        1 => b"functions",
        2 => b"points",
        3 => b"edges",
        4 => b"frame",
        5 => b"globals",
        6 => b"arguments",
        _ => b"printf",
    }
}

fn push_at(line: &mut Vec<u8>, at: Place) -> Result<(), AllocError>
    ensures { OnOk result (line.new.items ≡ line.old.items ++ at_place at) }
{
    line.extend_from_slice(b" at ")?;
    push_place(line, at)
}

/// Appends what is told of a source.
pub(crate) fn push_source(line: &mut Vec<u8>, cause: SourceCause) -> Result<(), AllocError>
    ensures { OnOk result (line.new.items ≡ line.old.items ++ source_text cause) }
{
    match cause {
        SourceCause::TooLong => line.extend_from_slice(b" too long"),
        SourceCause::Lex(kind, at) => {
            line.extend_from_slice(b" lex ")?;
            line.extend_from_slice(kind_word(kind))?;
            push_at(line, at)
        }
        SourceCause::Syntax(at) => {
            line.extend_from_slice(b" syntax")?;
            push_at(line, at)
        }
        SourceCause::Rule(rule, at) => {
            line.extend_from_slice(b" rule M")?;
            push_decimal(line, u64::from(rule))?;
            push_at(line, at)
        }
        SourceCause::Limit(limit, count) => {
            line.extend_from_slice(b" limit ")?;
            line.extend_from_slice(limit_word(limit))?;
            line.push(b' ')?;
            push_decimal(line, count)
        }
    }
}
