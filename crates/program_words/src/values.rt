//! The operands of parts; of these the words of values, initialisers and arguments.
use crate::error::Unread;
use crate::fields::{Fields, number_in};
use crate::lists::{boxed, last, last_ones, push};
use csub_core::{BinOp, CType, IntKind, Member, Place, RArg, RExpr, RInit, UnaryOp};
use std::alloc::Global;

/// The operands of parts, of each sort a list, in which the one that stands first in the text is last.
#[derive(Drop)]
pub struct Values {
    pub alloc: Global,
    pub types: Vec<CType>,
    pub members: Vec<Member>,
    pub places: Vec<Box<Place>>,
    pub values: Vec<Box<RExpr>>,
    pub initialisers: Vec<RInit>,
    pub arguments: Vec<RArg>,
}

impl Values {
    /// None.
    pub fn new(alloc: Global) -> Values {
        Values {
            alloc,
            types: Vec::new(alloc),
            members: Vec::new(alloc),
            places: Vec::new(alloc),
            values: Vec::new(alloc),
            initialisers: Vec::new(alloc),
            arguments: Vec::new(alloc),
        }
    }

    /// Whether none is left.
    pub fn are_used(&self) -> bool {
        let is_said = self.types.is_empty() && self.members.is_empty() && self.places.is_empty();
        let is_made = self.values.is_empty() && self.initialisers.is_empty();
        is_said && is_made && self.arguments.is_empty()
    }

    /// Reads a word of a value, an initialiser or an argument. `false` where it is none.
    pub fn read_value(&mut self, name: &str, fields: &mut Fields<'_>) -> Result<bool, Unread> {
        match name {
            "const" => self.read_constant(fields)?,
            "temp" => self.read_temporary(fields)?,
            "getchar" => self.push_value(RExpr::Getchar)?,
            "putchar" => self.read_output()?,
            "read" => self.read_from()?,
            "set" => self.read_assignment()?,
            "minus" => self.read_minus(fields)?,
            "add" => self.read_binary(BinOp::Add, fields)?,
            "sub" => self.read_binary(BinOp::Sub, fields)?,
            "one" => self.read_one()?,
            "list" => self.read_list(fields)?,
            "value" => self.read_value_argument()?,
            "row" => self.read_row()?,
            _ => return self.read_number(name),
        }
        Ok(true)
    }

    fn push_value(&mut self, value: RExpr) -> Result<(), Unread> {
        let value = boxed(self.alloc, value)?;
        push(&mut self.values, value)
    }

    fn read_number(&mut self, name: &str) -> Result<bool, Unread> {
        match number_in(name) {
            Some(number) => {
                self.push_value(RExpr::Const(IntKind::Int, number))?;
                Ok(true)
            }
            None => Ok(false),
        }
    }

    fn read_constant(&mut self, fields: &mut Fields<'_>) -> Result<(), Unread> {
        let kind = fields.kind()?;
        let number = fields.number()?;
        self.push_value(RExpr::Const(kind, number))
    }

    fn read_temporary(&mut self, fields: &mut Fields<'_>) -> Result<(), Unread> {
        let number = fields.count()?;
        let kind = fields.kind()?;
        self.push_value(RExpr::Temp(number, kind))
    }

    fn read_output(&mut self) -> Result<(), Unread> {
        let value = last(&mut self.values)?;
        self.push_value(RExpr::Putchar(value))
    }

    fn read_from(&mut self) -> Result<(), Unread> {
        let place = last(&mut self.places)?;
        self.push_value(RExpr::Read(Box::into_inner(place)))
    }

    fn read_assignment(&mut self) -> Result<(), Unread> {
        let place = last(&mut self.places)?;
        let value = last(&mut self.values)?;
        self.push_value(RExpr::Assign(Box::into_inner(place), value))
    }

    fn read_minus(&mut self, fields: &mut Fields<'_>) -> Result<(), Unread> {
        let kind = fields.kind()?;
        let operand = last(&mut self.values)?;
        self.push_value(RExpr::Unary(UnaryOp::Minus, kind, operand))
    }

    fn read_binary(&mut self, op: BinOp, fields: &mut Fields<'_>) -> Result<(), Unread> {
        let kind = fields.kind()?;
        let left = last(&mut self.values)?;
        let right = last(&mut self.values)?;
        self.push_value(RExpr::Binary(op, kind, left, right))
    }

    fn read_one(&mut self) -> Result<(), Unread> {
        let value = last(&mut self.values)?;
        push(&mut self.initialisers, RInit::One(Box::into_inner(value)))
    }

    fn read_list(&mut self, fields: &mut Fields<'_>) -> Result<(), Unread> {
        let count = fields.count()?;
        let entries = last_ones(self.alloc, &mut self.initialisers, count as usize)?;
        push(&mut self.initialisers, RInit::List(entries))
    }

    fn read_value_argument(&mut self) -> Result<(), Unread> {
        let value = last(&mut self.values)?;
        push(&mut self.arguments, RArg::Value(Box::into_inner(value)))
    }

    fn read_row(&mut self) -> Result<(), Unread> {
        let place = last(&mut self.places)?;
        push(&mut self.arguments, RArg::Array(Box::into_inner(place)))
    }
}
