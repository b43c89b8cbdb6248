//! Parts of one point.
use crate::error::Unread;
use crate::fields::Fields;
use crate::lists::{all, last, push};
use crate::values::Values;
use csub_core::{Answer, CType, CallLabel, EndRule, Label, Owner, Place, RCall, RPart, Span};
use csub_objects::copy_type;
use std::alloc::Global;

/// The place of what stands in no source.
pub const NOWHERE: Span = Span { start: 0, end: 0 };

/// The parts whose statements aren't read yet, and what is still an operand.
#[derive(Drop)]
pub struct Parts {
    pub operands: Values,
    /// The part that stands first in the text is last.
    pub parts: Vec<RPart>,
}

impl Parts {
    /// None.
    pub fn new(alloc: Global) -> Parts {
        Parts {
            operands: Values::new(alloc),
            parts: Vec::new(alloc),
        }
    }

    /// Reads a word of a part, or of its operands. `false` where it is none.
    pub fn read(&mut self, name: &str, fields: &mut Fields<'_>) -> Result<bool, Unread> {
        Ok(
            self.operands.read_type(name, fields)?
                || self.operands.read_value(name, fields)?
                || self.read_part(name, fields)?,
        )
    }

    /// Reads a word of a part. `false` where it is none.
    fn read_part(&mut self, name: &str, fields: &mut Fields<'_>) -> Result<bool, Unread> {
        match name {
            "eval" => self.read_evaluation()?,
            "test" => self.read_test()?,
            "switch_value" => self.read_switch_value()?,
            "return" => self.read_return(fields)?,
            "exit" => self.read_exit()?,
            "init" => self.read_initialisation()?,
            "jump" => self.push_part(Label::Goto)?,
            "entry" => self.push_part(Label::Entry)?,
            "end" => self.read_end(fields)?,
            "call" => self.read_call(fields)?,
            "at" => self.read_at(fields)?,
            _ => return Ok(false),
        }
        Ok(true)
    }

    fn push_part(&mut self, label: Label) -> Result<(), Unread> {
        let part = RPart {
            calls: Vec::new(self.operands.alloc),
            main: Some(label),
            span: NOWHERE,
        };
        push(&mut self.parts, part)
    }

    fn read_evaluation(&mut self) -> Result<(), Unread> {
        let value = last(&mut self.operands.values)?;
        self.push_part(Label::Eval(Box::into_inner(value)))
    }

    fn read_test(&mut self) -> Result<(), Unread> {
        let value = last(&mut self.operands.values)?;
        self.push_part(Label::Branch(Box::into_inner(value)))
    }

    fn read_switch_value(&mut self) -> Result<(), Unread> {
        let value = last(&mut self.operands.values)?;
        self.push_part(Label::Switch(Box::into_inner(value)))
    }

    fn read_return(&mut self, fields: &mut Fields<'_>) -> Result<(), Unread> {
        if fields.is_done() {
            return self.push_part(Label::Return(None));
        }
        let kind = fields.kind()?;
        let value = Box::into_inner(last(&mut self.operands.values)?);
        self.push_part(Label::Return(Some(Answer { kind, value })))
    }

    fn read_exit(&mut self) -> Result<(), Unread> {
        let value = last(&mut self.operands.values)?;
        self.push_part(Label::Halt(Box::into_inner(value)))
    }

    fn read_initialisation(&mut self) -> Result<(), Unread> {
        let place = last(&mut self.operands.places)?;
        let Place::Var(owner, ctype) = &*place else {
            return Err(Unread::Operand);
        };
        let owner = copy_owner(owner)?;
        let ctype = copy_type(ctype)?;
        self.push_initialisation(owner, ctype)
    }

    /// Adds a part that initialises an object.
    fn push_initialisation(&mut self, owner: Owner, ctype: CType) -> Result<(), Unread> {
        let contents = last(&mut self.operands.initialisers)?;
        self.push_part(Label::Init(owner, ctype, contents))
    }

    fn read_end(&mut self, fields: &mut Fields<'_>) -> Result<(), Unread> {
        let rule = match fields.next()? {
            "nothing" => EndRule::Nothing,
            "value" => EndRule::Value,
            "main" => EndRule::Main,
            "start" => EndRule::Start,
            _ => return Err(Unread::Word),
        };
        self.push_part(Label::Exit(rule))
    }

    fn read_call(&mut self, fields: &mut Fields<'_>) -> Result<(), Unread> {
        let callee = fields.name(self.operands.alloc)?;
        let outcome = fields.outcome()?;
        let number = fields.count()?;
        let params = all(self.operands.alloc, &mut self.operands.members)?;
        let args = all(self.operands.alloc, &mut self.operands.arguments)?;
        let temp = if number == 0 { None } else { Some(number) };
        self.push_call(CallLabel {
            callee,
            params,
            result: outcome,
            args,
            temp,
        })
    }

    /// Adds a part that is a call as a whole.
    pub fn push_call(&mut self, label: CallLabel) -> Result<(), Unread> {
        let mut calls = Vec::new(self.operands.alloc);
        let span = NOWHERE;
        push(&mut calls, RCall { label, span })?;
        let part = RPart {
            calls,
            main: None,
            span,
        };
        push(&mut self.parts, part)
    }

    fn read_at(&mut self, fields: &mut Fields<'_>) -> Result<(), Unread> {
        let byte = fields.count()?;
        let part = self.parts.last_mut().ok_or(Unread::Operand)?;
        part.span = Span {
            start: byte,
            end: byte,
        };
        Ok(())
    }
}

fn copy_owner(owner: &Owner) -> Result<Owner, Unread> {
    Ok(match owner {
        Owner::Global(name) => Owner::Global(name.copy()?),
        Owner::Local(name, number) => Owner::Local(name.copy()?, *number),
    })
}
