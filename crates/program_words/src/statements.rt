//! Statements.
use crate::error::Unread;
use crate::fields::Fields;
use crate::lists::{all, boxed, last, last_ones, push};
use crate::parts::Parts;
use csub_core::{RPart, RStmt};
use std::alloc::Global;
use std::mem;

/// The statements of the blocks whose `{` isn't read yet, and whole blocks.
#[derive(Drop)]
pub struct Lines {
    pub alloc: Global,
    pub parts: Parts,
    /// The statements of the innermost block, of which the one that stands first in the text is last.
    lines: Vec<RStmt>,
    /// Those of the blocks around it.
    outer: Vec<Vec<RStmt>>,
    /// Whole blocks, each in the order of the text.
    blocks: Vec<Vec<RStmt>>,
}

impl Lines {
    /// None.
    pub fn new(alloc: Global) -> Lines {
        Lines {
            alloc,
            parts: Parts::new(alloc),
            lines: Vec::new(alloc),
            outer: Vec::new(alloc),
            blocks: Vec::new(alloc),
        }
    }

    /// Whether none is left.
    pub fn are_used(&self) -> bool {
        self.lines.is_empty() && self.outer.is_empty() && self.blocks.is_empty()
    }

    /// Reads a word of a statement, or of its parts. `false` where it is none.
    pub fn read(&mut self, name: &str, fields: &mut Fields<'_>) -> Result<bool, Unread> {
        Ok(self.parts.read(name, fields)? || self.read_statement(name, fields)?)
    }

    /// Reads a word of a statement. `false` where it is none.
    fn read_statement(&mut self, name: &str, fields: &mut Fields<'_>) -> Result<bool, Unread> {
        match name {
            "}" => self.read_close()?,
            "{" => self.read_open()?,
            "line" => self.read_lines(1)?,
            "lines" => self.read_counted_lines(fields)?,
            "block" => self.read_block()?,
            "if" => self.read_if()?,
            "choose" => self.read_choose()?,
            "while" => self.read_while()?,
            "do" => self.read_do()?,
            "for" => self.read_for(fields)?,
            "switch" => self.read_switch()?,
            "case" => self.read_case(fields)?,
            "default" => self.push_line(RStmt::Default)?,
            "break" => self.push_line(RStmt::Break)?,
            "continue" => self.push_line(RStmt::Continue)?,
            "goto" => self.read_goto(fields)?,
            "mark" => self.read_mark(fields)?,
            _ => return Ok(false),
        }
        Ok(true)
    }

    /// Begins with a block, at its end.
    pub fn read_close(&mut self) -> Result<(), Unread> {
        let behind = mem::replace(&mut self.lines, Vec::new(self.alloc));
        push(&mut self.outer, behind)
    }

    /// Ends with a block, at its beginning.
    pub fn read_open(&mut self) -> Result<(), Unread> {
        let block = all(self.alloc, &mut self.lines)?;
        self.lines = last(&mut self.outer)?;
        push(&mut self.blocks, block)
    }

    /// Adds a statement of so many parts.
    pub fn read_lines(&mut self, count: u32) -> Result<(), Unread> {
        let parts = last_ones(self.alloc, &mut self.parts.parts, count as usize)?;
        self.push_line(RStmt::Parts(parts))
    }

    fn read_counted_lines(&mut self, fields: &mut Fields<'_>) -> Result<(), Unread> {
        let count = fields.count()?;
        self.read_lines(count)
    }

    fn read_block(&mut self) -> Result<(), Unread> {
        let block = self.block()?;
        self.push_line(RStmt::Block(block))
    }

    fn push_line(&mut self, line: RStmt) -> Result<(), Unread> {
        push(&mut self.lines, line)
    }

    /// The part that was read last.
    fn part(&mut self) -> Result<RPart, Unread> {
        last(&mut self.parts.parts)
    }

    /// The block that was read last.
    pub fn block(&mut self) -> Result<Vec<RStmt>, Unread> {
        last(&mut self.blocks)
    }

    /// The block that was read last, as a statement.
    fn body(&mut self) -> Result<Box<RStmt>, Unread> {
        let block = self.block()?;
        boxed(self.alloc, RStmt::Block(block))
    }

    fn read_if(&mut self) -> Result<(), Unread> {
        let then = self.body()?;
        let test = self.part()?;
        self.push_line(RStmt::If(test, then, None))
    }

    fn read_choose(&mut self) -> Result<(), Unread> {
        let then = self.body()?;
        let other = self.body()?;
        let test = self.part()?;
        self.push_line(RStmt::If(test, then, Some(other)))
    }

    fn read_while(&mut self) -> Result<(), Unread> {
        let body = self.body()?;
        let test = self.part()?;
        self.push_line(RStmt::While(test, body))
    }

    fn read_do(&mut self) -> Result<(), Unread> {
        let body = self.body()?;
        let test = self.part()?;
        self.push_line(RStmt::Do(body, test))
    }

    fn read_for(&mut self, fields: &mut Fields<'_>) -> Result<(), Unread> {
        let first = fields.count()?;
        let third = fields.count()?;
        let before = last_ones(self.alloc, &mut self.parts.parts, first as usize)?;
        let mut tests = last_ones(self.alloc, &mut self.parts.parts, 1)?;
        let behind = last_ones(self.alloc, &mut self.parts.parts, third as usize)?;
        let body = self.body()?;
        let test = last(&mut tests)?;
        self.push_line(RStmt::For(before, test, behind, body))
    }

    fn read_switch(&mut self) -> Result<(), Unread> {
        let lines = self.block()?;
        let value = self.part()?;
        self.push_line(RStmt::Switch(value, lines))
    }

    fn read_case(&mut self, fields: &mut Fields<'_>) -> Result<(), Unread> {
        let value = fields.number()?;
        self.push_line(RStmt::Case(value))
    }

    fn read_goto(&mut self, fields: &mut Fields<'_>) -> Result<(), Unread> {
        let name = fields.name(self.alloc)?;
        let part = self.part()?;
        self.push_line(RStmt::Goto(name, part))
    }

    fn read_mark(&mut self, fields: &mut Fields<'_>) -> Result<(), Unread> {
        let name = fields.name(self.alloc)?;
        let line = boxed(self.alloc, last(&mut self.lines)?)?;
        self.push_line(RStmt::Mark(name, line))
    }
}
