//! The next piece of a source.
ghost use Rattle.std.specs.Prelude.{◌≤◌, ◌<◌, length, drop, IfOk};
ghost use Rattle.csub_lex.specs.Finding.{word_cut, number_cut, constant, character_of, text_cut, characters_of, directive_cut, comment_cut, mark_cut, next, Gives};

use crate::bytes::{begins_with, behind_line, from, front, is_blank, is_letter, word_len};
use crate::error::LexKind;
use crate::key::key_of;
use crate::line::{behind_close, behind_include, is_blank_line, opens};
use crate::mark::mark_of;
use crate::number::number_of;
use crate::quoted::{character_of, characters_of};
use crate::step::Step;
use crate::token::TokenKind;
use csub_text::Text;
use std::alloc::{AllocError, Global};

/// The next piece of a source: the first of the bytes that stand behind `before`. An `Err` is want of memory.
#[tactic(auto, unfolding(crate::specs::Finding::next, crate::specs::Finding::other_cut))]
pub fn piece(alloc: Global, before: &[u8], bytes: &[u8]) -> Result<Step, AllocError>
    requires some { 0 < length bytes.now }
    requires small { length bytes.now ≤ 1048576 }
    ensures { IfOk result (λ step. Gives bytes.now step (next before.now bytes.now)) }
{
    let first = bytes[0];
    if is_blank(first) {
        return Ok(Step::Skip(1));
    }
    if is_letter(first) {
        return word(alloc, bytes);
    }
    if first.is_ascii_digit() {
        return Ok(number(bytes));
    }
    match first {
        b'#' => Ok(directive(before, bytes)),
        b'\'' => Ok(constant(bytes)),
        b'"' => string(alloc, bytes),
        _ => Ok(mark(bytes)),
    }
}

/// A keyword or a name.
#[tactic(auto, unfolding(crate::specs::Finding::word_cut))]
fn word(alloc: Global, bytes: &[u8]) -> Result<Step, AllocError>
    ensures { IfOk result (λ step. Gives bytes.now step (word_cut bytes.now)) }
{
    let len = word_len(bytes);
    let text = front(bytes, len);
    match key_of(text) {
        Some(key) => Ok(Step::Token(TokenKind::Key(key), len)),
        None => {
            let name = Text::new(alloc, text)?;
            Ok(Step::Token(TokenKind::Name(name), len))
        }
    }
}

/// A number.
#[tactic(auto, unfolding(crate::specs::Finding::number_cut))]
fn number(bytes: &[u8]) -> Step
    ensures { Gives bytes.now result (number_cut bytes.now) }
{
    let len = word_len(bytes);
    match number_of(front(bytes, len)) {
        Some((value, unsigned)) => Step::Token(TokenKind::Number(value, unsigned), len),
        None => Step::Stuck(LexKind::Number),
    }
}

/// A character constant: the bytes begin with `'`.
fn constant(bytes: &[u8]) -> Step
    requires some { 0 < length bytes.now }
    requires small { length bytes.now ≤ 1048576 }
    ensures { Gives bytes.now result (constant (character_of 39 (drop 1 bytes.now))) }
{
    match character_of(b'\'', from(bytes, 1)) {
        Some((value, after)) => {
            if begins_with(after, b'\'') {
                Step::Token(TokenKind::Char(value), bytes.len() - after.len() + 1)
            } else {
                Step::Stuck(LexKind::Byte)
            }
        }
        None => Step::Stuck(LexKind::Byte),
    }
}

/// A string: the bytes begin with `"`.
fn string(alloc: Global, bytes: &[u8]) -> Result<Step, AllocError>
    requires { 0 < length bytes.now }
    ensures { IfOk result (λ step. Gives bytes.now step (text_cut (characters_of 34 (drop 1 bytes.now)))) }
{
    match characters_of(alloc, b'"', from(bytes, 1)) {
        Ok(Some((text, after))) => Ok(Step::Token(
            TokenKind::Text(text),
            bytes.len() - after.len(),
        )),
        Ok(None) => Ok(Step::Stuck(LexKind::Byte)),
        Err(error) => Err(error),
    }
}

/// An include line: the bytes begin with `#`.
#[tactic(auto, unfolding(crate::specs::Finding::directive_cut))]
fn directive(before: &[u8], bytes: &[u8]) -> Step
    requires some { 0 < length bytes.now }
    requires small { length bytes.now ≤ 1048576 }
    ensures { Gives bytes.now result (directive_cut before.now (drop 1 bytes.now)) }
{
    if !is_blank_line(before) {
        return Step::Stuck(LexKind::Directive);
    }
    match behind_include(from(bytes, 1)) {
        Some(after) => Step::Skip(bytes.len() - after.len()),
        None => Step::Stuck(LexKind::Directive),
    }
}

/// A mark or a comment.
#[tactic(auto, unfolding(crate::specs::Finding::mark_cut))]
fn mark(bytes: &[u8]) -> Step
    requires { length bytes.now ≤ 1048576 }
    ensures { Gives bytes.now result (mark_cut bytes.now) }
{
    if opens(bytes, b'/') {
        let after = behind_line(from(bytes, 2));
        return Step::Skip(bytes.len() - after.len());
    }
    if opens(bytes, b'*') {
        return comment(bytes);
    }
    match mark_of(bytes) {
        Some(mark) => Step::Token(TokenKind::Mark(mark), mark.text().len()),
        None => Step::Stuck(LexKind::Byte),
    }
}

/// A comment: the bytes begin with `/*`.
#[tactic(auto, unfolding(crate::specs::Finding::comment_cut))]
fn comment(bytes: &[u8]) -> Step
    requires some { 2 ≤ length bytes.now }
    requires small { length bytes.now ≤ 1048576 }
    ensures { Gives bytes.now result (comment_cut bytes.now) }
{
    match behind_close(from(bytes, 2)) {
        Some(after) => Step::Skip(bytes.len() - after.len()),
        None => Step::Stuck(LexKind::Byte),
    }
}
