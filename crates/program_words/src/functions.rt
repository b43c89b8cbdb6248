//! Functions and objects.
use crate::error::Unread;
use crate::fields::Fields;
use crate::lists::{all, last, push};
use crate::parts::NOWHERE;
use crate::reading::Reading;
use csub_core::{CallLabel, Function, GlobalVar, IntKind, LocalVar, Text};

impl Reading {
    /// Reads a word of a function, a local or an object of file scope. `false` where it is none.
    pub fn read_function(&mut self, name: &str, fields: &mut Fields<'_>) -> Result<bool, Unread> {
        match name {
            "function" => self.read_any_function(fields)?,
            "main" => self.read_main()?,
            "start" => self.read_start()?,
            "object" => self.read_object(fields)?,
            "static" => self.read_static(fields)?,
            _ => return Ok(false),
        }
        Ok(true)
    }

    fn push_function(
        &mut self,
        name: Text,
        outcome: Option<IntKind>,
        temps: u32,
    ) -> Result<(), Unread> {
        let params = all(self.lines.alloc, &mut self.lines.parts.operands.members)?;
        let locals = all(self.lines.alloc, &mut self.locals)?;
        let body = self.lines.block()?;
        let function = Function {
            name,
            params,
            result: outcome,
            body,
            span: NOWHERE,
            locals,
            temps,
        };
        push(&mut self.functions, function)
    }

    fn read_any_function(&mut self, fields: &mut Fields<'_>) -> Result<(), Unread> {
        let name = fields.name(self.lines.alloc)?;
        let outcome = fields.outcome()?;
        let temps = fields.count()?;
        self.push_function(name, outcome, temps)
    }

    fn read_main(&mut self) -> Result<(), Unread> {
        let name = Text::new(self.lines.alloc, b"main")?;
        self.push_function(name, Some(IntKind::Int), 0)
    }

    /// `#start`, which calls `main` into its temporary 1.
    fn read_start(&mut self) -> Result<(), Unread> {
        let call = CallLabel {
            callee: Text::new(self.lines.alloc, b"main")?,
            params: Vec::new(self.lines.alloc),
            result: Some(IntKind::Int),
            args: Vec::new(self.lines.alloc),
            temp: Some(1),
        };
        self.lines.read_close()?;
        self.lines.parts.push_call(call)?;
        self.lines.read_lines(1)?;
        self.lines.read_open()?;
        let name = Text::new(self.lines.alloc, b"#start")?;
        self.push_function(name, None, 1)
    }

    fn read_object(&mut self, fields: &mut Fields<'_>) -> Result<(), Unread> {
        let name = fields.name(self.lines.alloc)?;
        let number = fields.count()?;
        let ctype = last(&mut self.lines.parts.operands.types)?;
        let object = LocalVar {
            name,
            number,
            ctype,
        };
        push(&mut self.locals, object)
    }

    fn read_static(&mut self, fields: &mut Fields<'_>) -> Result<(), Unread> {
        let name = fields.name(self.lines.alloc)?;
        let initial = fields.numbers(self.lines.alloc)?;
        let ctype = last(&mut self.lines.parts.operands.types)?;
        let object = GlobalVar {
            name,
            ctype,
            initial,
        };
        push(&mut self.globals, object)
    }
}
