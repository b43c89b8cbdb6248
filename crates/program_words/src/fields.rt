//! The fields of a word.
use crate::error::Unread;
use crate::lists::push;
use csub_core::{IntKind, Text};
use std::alloc::Global;

/// The fields of a word that are not read yet.
#[derive(Drop)]
pub struct Fields<'a> {
    rest: Option<&'a str>,
}

impl<'a> Fields<'a> {
    /// The fields of a word, its name first.
    pub fn new(word: &'a str) -> Fields<'a> {
        Fields { rest: Some(word) }
    }

    /// The next field.
    pub fn next(&mut self) -> Result<&'a str, Unread> {
        let rest = self.rest.ok_or(Unread::Word)?;
        match rest.split_once(':') {
            Some((field, behind)) => {
                self.rest = Some(behind);
                Ok(field)
            }
            None => {
                self.rest = None;
                Ok(rest)
            }
        }
    }

    /// Whether all were read.
    pub fn is_done(&self) -> bool {
        self.rest.is_none()
    }

    /// The next field, as a name.
    pub fn name(&mut self, alloc: Global) -> Result<Text, Unread> {
        let field = self.next()?;
        Ok(Text::new(alloc, field.as_bytes())?)
    }

    /// The next field, as a number.
    pub fn number(&mut self) -> Result<i64, Unread> {
        number_in(self.next()?).ok_or(Unread::Word)
    }

    /// The next field, as a count or the number of something.
    pub fn count(&mut self) -> Result<u32, Unread> {
        u32::try_from(self.number()?).map_err(|_| Unread::Word)
    }

    /// All fields that are left, as numbers.
    pub fn numbers(&mut self, alloc: Global) -> Result<Vec<i64>, Unread> {
        let mut numbers = Vec::new(alloc);
        if let Some(rest) = self.rest.take() {
            for field in rest.split(':') {
                push(&mut numbers, number_in(field).ok_or(Unread::Word)?)?;
            }
        }
        Ok(numbers)
    }

    /// The next field, as a kind.
    pub fn kind(&mut self) -> Result<IntKind, Unread> {
        kind_in(self.next()?).ok_or(Unread::Word)
    }

    /// The next field, as a result type, which may be `void`.
    pub fn outcome(&mut self) -> Result<Option<IntKind>, Unread> {
        match self.next()? {
            "void" => Ok(None),
            field => Ok(Some(kind_in(field).ok_or(Unread::Word)?)),
        }
    }
}

/// The number that a field says.
pub fn number_in(field: &str) -> Option<i64> {
    line_text::read_signed(field.as_bytes())
}

/// The kind that a field names.
pub fn kind_in(field: &str) -> Option<IntKind> {
    match field {
        "char" => Some(IntKind::Char),
        "int" => Some(IntKind::Int),
        "unsigned" => Some(IntKind::Unsigned),
        _ => None,
    }
}
