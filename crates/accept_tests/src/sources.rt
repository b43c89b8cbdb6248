//! Sources, their programs, and why others are refused, as texts.
use csub_accept::{LexKind, SourceError, accept};
use csub_core::Program;
use std::alloc::{AllocError, Global};
use std::test::Fail;

/// The program of a source.
pub fn program_of(alloc: Global, source: &str) -> Result<Box<Program>, Fail> {
    match accept(alloc, source.as_bytes()) {
        Ok(program) => Ok(Box::new(alloc, program)?),
        Err(error) => Err(refusal(alloc, error)?.as_str().into()),
    }
}

/// Whether a line of a table is a row: it is none where it is empty or begins as a comment does.
pub fn is_row(line: &str) -> bool {
    !line.is_empty() && !line.starts_with("//")
}

/// Why a source isn't accepted, if it isn't.
pub fn error_of(alloc: Global, source: &str) -> Option<SourceError> {
    accept(alloc, source.as_bytes()).err()
}

fn kind_name(kind: LexKind) -> &'static str {
    match kind {
        LexKind::Byte => "byte",
        LexKind::Number => "number",
        LexKind::Directive => "directive",
    }
}

/// Why a source isn't accepted, as a text.
fn refusal(alloc: Global, error: SourceError) -> Result<String, AllocError> {
    match error {
        SourceError::TooLong(length) => format!(in alloc; "too long {length}"),
        SourceError::Lex(kind, at) => {
            format!(in alloc; "lex {} {} {}", kind_name(kind), at.start, at.end)
        }
        SourceError::Syntax(at) => format!(in alloc; "syntax {} {}", at.start, at.end),
        SourceError::Meaning(rule, at) => format!(in alloc; "rule M{rule} {} {}", at.start, at.end),
        SourceError::Limit(limit, count) => format!(in alloc; "limit {limit} {count}"),
        SourceError::Memory => format!(in alloc; "memory"),
    }
}

/// The text of why a source isn't accepted, or that it is.
pub fn answer(alloc: Global, source: &str) -> Result<String, AllocError> {
    match error_of(alloc, source) {
        Some(error) => refusal(alloc, error),
        None => format!(in alloc; "accepted"),
    }
}
