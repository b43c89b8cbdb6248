//! What is declared at a place.
ghost use Rattle.std.specs.Prelude.{◌≡◌, []};
ghost use Rattle.csub_scopes.specs.Meanings.{scope_of};

use crate::names::Names;
use crate::tags::Tags;
use std::alloc::Global;

/// The names and the tags that are declared at a place.
#[derive(Drop)]
pub struct Scope {
    /// The names of objects, enum constants and functions.
    pub names: Names,
    /// The tags of structs and enumerations.
    pub tags: Tags,
}

impl Scope {
    /// What is declared before the first item of a source: nothing.
    pub fn new(alloc: Global) -> Scope
        ensures { scope_of result ≡ record { names = []; tags = [] } }
    {
        Scope {
            names: Names::new(alloc),
            tags: Tags::new(alloc),
        }
    }
}
