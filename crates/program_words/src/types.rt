//! Types, members and places.
use crate::error::Unread;
use crate::fields::{Fields, kind_in};
use crate::lists::{boxed, last, last_ones, push};
use crate::values::Values;
use csub_core::{CType, Member, Owner, Place};
use csub_objects::{array_of, loose_of, struct_of};

impl Values {
    /// Reads a word of a type, a member or a place. `false` where it is none.
    pub fn read_type(&mut self, name: &str, fields: &mut Fields<'_>) -> Result<bool, Unread> {
        match name {
            "array" => self.read_array(fields)?,
            "loose" => self.read_loose()?,
            "struct" => self.read_struct(fields)?,
            "member" => self.read_member(fields)?,
            "global" => self.read_global(fields)?,
            "local" => self.read_local(fields)?,
            "element" => self.read_element()?,
            "dot" => self.read_dot(fields)?,
            _ => return self.read_number_type(name),
        }
        Ok(true)
    }

    fn read_number_type(&mut self, name: &str) -> Result<bool, Unread> {
        match kind_in(name) {
            Some(kind) => {
                push(&mut self.types, CType::Num(kind))?;
                Ok(true)
            }
            None => Ok(false),
        }
    }

    fn read_array(&mut self, fields: &mut Fields<'_>) -> Result<(), Unread> {
        let length = fields.count()?;
        let element = last(&mut self.types)?;
        let array = array_of(self.alloc, element, length)?;
        push(&mut self.types, array)
    }

    fn read_loose(&mut self) -> Result<(), Unread> {
        let element = last(&mut self.types)?;
        let array = loose_of(self.alloc, element)?;
        push(&mut self.types, array)
    }

    fn read_struct(&mut self, fields: &mut Fields<'_>) -> Result<(), Unread> {
        let tag = fields.name(self.alloc)?;
        let count = fields.count()?;
        let members = last_ones(self.alloc, &mut self.members, count as usize)?;
        let whole = struct_of(self.alloc, tag, members)?.ok_or(Unread::Operand)?;
        push(&mut self.types, whole)
    }

    fn read_member(&mut self, fields: &mut Fields<'_>) -> Result<(), Unread> {
        let name = fields.name(self.alloc)?;
        let ctype = last(&mut self.types)?;
        push(&mut self.members, Member { name, ctype })
    }

    fn read_global(&mut self, fields: &mut Fields<'_>) -> Result<(), Unread> {
        let owner = Owner::Global(fields.name(self.alloc)?);
        self.push_object(owner)
    }

    fn read_local(&mut self, fields: &mut Fields<'_>) -> Result<(), Unread> {
        let name = fields.name(self.alloc)?;
        let number = fields.count()?;
        self.push_object(Owner::Local(name, number))
    }

    fn push_object(&mut self, owner: Owner) -> Result<(), Unread> {
        let ctype = last(&mut self.types)?;
        self.push_place(Place::Var(owner, ctype))
    }

    fn read_element(&mut self) -> Result<(), Unread> {
        let array = last(&mut self.places)?;
        let index = last(&mut self.values)?;
        self.push_place(Place::Index(array, index))
    }

    fn read_dot(&mut self, fields: &mut Fields<'_>) -> Result<(), Unread> {
        let name = fields.name(self.alloc)?;
        let whole = last(&mut self.places)?;
        self.push_place(Place::Member(whole, name))
    }

    fn push_place(&mut self, place: Place) -> Result<(), Unread> {
        let place = boxed(self.alloc, place)?;
        push(&mut self.places, place)
    }
}
