//! What the words of a text stand for.
use crate::error::Unread;
use crate::fields::Fields;
use crate::lists::{all, last, push};
use crate::statements::Lines;
use csub_core::{Function, GlobalVar, Label, LocalVar, Program, RPart};
use csub_decisions::MakeProgram;
use std::alloc::Global;

/// What the words of the end of a text stand for: of each sort a list, in which the one that stands first in the text is
/// last. A text is read from its end, so that a word finds its operands at the ends of these lists.
#[derive(Drop)]
pub struct Reading {
    pub lines: Lines,
    pub locals: Vec<LocalVar>,
    pub functions: Vec<Function>,
    pub globals: Vec<GlobalVar>,
}

impl Reading {
    fn new(alloc: Global) -> Reading {
        Reading {
            lines: Lines::new(alloc),
            locals: Vec::new(alloc),
            functions: Vec::new(alloc),
            globals: Vec::new(alloc),
        }
    }

    /// Reads a word, whose operands were read before it.
    fn read_word(&mut self, word: &str) -> Result<(), Unread> {
        let mut fields = Fields::new(word);
        let name = fields.next()?;
        let is_known = self.lines.read(name, &mut fields)?
            || self.read_function(name, &mut fields)?;
        if is_known && fields.is_done() {
            Ok(())
        } else {
            Err(Unread::Word)
        }
    }

    /// Reads all words of a text, of which nothing may be left but parts, functions and objects of file scope.
    fn read_text(&mut self, text: &str) -> Result<(), Unread> {
        for word in text.rsplit(' ') {
            if !word.is_empty() {
                self.read_word(word)?;
            }
        }
        if self.is_whole() {
            Ok(())
        } else {
            Err(Unread::Operand)
        }
    }

    /// Whether nothing is left but parts, functions and objects of file scope.
    fn is_whole(&self) -> bool {
        self.lines.parts.operands.are_used() && self.lines.are_used() && self.locals.is_empty()
    }

    /// The program that a text stands for.
    fn program(&mut self, text: &str) -> Result<Option<Program>, Unread> {
        self.read_text(text)?;
        if !self.lines.parts.parts.is_empty() {
            return Err(Unread::Operand);
        }
        let functions = all(self.lines.alloc, &mut self.functions)?;
        let globals = all(self.lines.alloc, &mut self.globals)?;
        Ok(Program::make(functions, globals))
    }

    /// The labels that a text stands for.
    fn labels(&mut self, text: &str) -> Result<Vec<Label>, Unread> {
        self.read_text(text)?;
        if !self.functions.is_empty() || !self.globals.is_empty() {
            return Err(Unread::Operand);
        }
        labels_of(self.lines.alloc, &mut self.lines.parts.parts)
    }
}

/// The program that a text stands for, by its functions and its objects of file scope; `None` where it is not valid.
pub fn read_program(alloc: Global, text: &str) -> Result<Option<Program>, Unread> {
    let mut reading = Reading::new(alloc);
    reading.program(text)
}

/// Whether the program that a text stands for is valid.
pub fn accepts(alloc: Global, text: &str) -> Result<bool, Unread> {
    Ok(read_program(alloc, text)?.is_some())
}

/// The labels that a text stands for, by its parts.
pub fn read_labels(alloc: Global, text: &str) -> Result<Vec<Label>, Unread> {
    let mut reading = Reading::new(alloc);
    reading.labels(text)
}

/// The labels of parts, of which the last one stands first in the text.
fn labels_of(alloc: Global, parts: &mut Vec<RPart>) -> Result<Vec<Label>, Unread> {
    let mut labels = Vec::new(alloc);
    for _ in 0..parts.len() {
        push(&mut labels, label_of(last(parts)?)?)?;
    }
    Ok(labels)
}

/// The label of a part of one point.
fn label_of(mut part: RPart) -> Result<Label, Unread> {
    match part.main.take() {
        Some(label) => Ok(label),
        None => Ok(Label::Call(last(&mut part.calls)?.label)),
    }
}
