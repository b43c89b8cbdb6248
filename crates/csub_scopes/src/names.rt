//! The declarations of names in scope.
ghost use Rattle.std.specs.Prelude.{◌≡◌, ◌∷◌, [], ◌-◌, OnOk, OnErr, option_map, length, drop};
ghost use Rattle.csub_scopes.specs.Scopes.{find};
ghost use Rattle.csub_scopes.specs.Meanings.{declared_of, meaning_of};

use crate::meaning::{Declared, Meaning};
use crate::places::{place_of, put_back, put_next};
use csub_text::Text;
use indexmap::IndexMap;
use std::alloc::{AllocError, Global};
use std::marker::Model;

/// The declarations in scope. Contracts see their list, the innermost and the latest first.
pub struct Names {
    alloc: Global,
    stack: Vec<Entry>,
    latest: IndexMap<Vec<u8>, Option<u32>>,
}

impl Drop for Names {
    fn drop(self) {
        let Names {
            alloc: _,
            stack: _,
            latest: _,
        } = self;
    }
}

/// A declaration, and the place of the one of its name that it hides.
#[derive(Drop)]
struct Entry {
    declared: Declared,
    outer: Option<u32>,
}

impl Model for Names {
    ghost use Rattle.std.specs.Prelude.{List};
    ghost use Rattle.csub_scopes.specs.Scopes as scopes;
    ghost use Rattle.csub_scopes.specs.Codes.{names_code};

    ghost Value = { List scopes.Declared };

    ghost coded = { names_code };

    ghost use Rattle.std.specs.Prelude.{map, reverse};
    ghost use Rattle.csub_scopes.specs.Meanings.{declared_of};
    ghost use Rattle.csub_scopes.specs.Chains.{IsChained};
    ghost use Rattle.csub_scopes.specs.Places.{ArePlaces};

    ghost view = { λ names. map (λ entry. declared_of entry.declared) (reverse names.stack.items) };

    ghost invariant = { λ names. IsChained (reverse names.stack.items) × ArePlaces names.latest (map (λ entry. entry.declared.name) (reverse names.stack.items)) };
}

impl Names {
    /// No declaration.
    pub fn new(alloc: Global) -> Names
        ensures { result ≡ [] }
    {
        Names {
            alloc,
            stack: Vec::new(alloc),
            latest: IndexMap::new(alloc),
        }
    }

    /// The declaration that a name refers to: the latest one of the innermost scope that has one (C11 6.2.1p4).
    pub fn find(&self, name: &[u8]) -> Option<&Declared>
        ensures { option_map (λ declared. declared_of declared.now) result ≡ find name.now self.now }
    {
        let place = place_of(&self.latest, name)?;
        Some(&self.stack[place as usize].declared)
    }

    /// Declares a name, which hides every earlier declaration of it. An `Err` is want of memory, or 4,294,967,295
    /// declarations that stand already, and nothing is declared then.
    pub fn declare(&mut self, name: &Text, depth: u32, meaning: Meaning) -> Result<(), AllocError>
        ensures ok { OnOk result (self.new ≡ record { name = name.now; depth = depth; means = meaning_of meaning } ∷ self.old) }
        ensures err { OnErr result (self.new ≡ self.old) }
    {
        self.stack.reserve(1)?;
        let count = self.stack.len();
        let (name, outer) = put_next(self.alloc, &mut self.latest, name, count)?;
        let declared = Declared {
            name,
            depth,
            meaning,
        };
        self.stack.push(Entry { declared, outer })?;
        Ok(())
    }

    /// How many declarations are in scope.
    pub fn count(&self) -> usize
        ensures { result ≡ length self.now }
    {
        self.stack.len()
    }

    /// Takes the latest declaration away; what it hid is seen again.
    fn forget(&mut self)
        ensures { self.new ≡ drop 1 self.old }
    {
        if let Some(entry) = self.stack.pop() {
            put_back(&mut self.latest, entry.declared.name.bytes(), entry.outer);
        }
    }

    /// Closes a scope: of all declarations the first ones stay, as many as `mark`, which is their count when the scope
    /// was opened. It takes constant time for each one that goes.
    pub fn close(&mut self, mark: usize)
        ensures { self.new ≡ drop (length self.old - mark) self.old }
    {
        while self.count() > mark {
            self.forget();
        }
    }
}
