//! Where a statement stands.
ghost use Rattle.std.specs.Prelude.{◌≡◌, IfOk, OnOk, length, option_map};
ghost use Rattle.csub_objects.specs.Meaning.{type_tree};
ghost use Rattle.csub_rules.specs.Here.{declaring, entering, is_declared, local_meaning};
ghost use Rattle.csub_scopes.specs.Meanings.{meaning_of};
ghost use Rattle.csub_bodies.specs.Views.{closed, here_of};

use csub_objects::CType;
use csub_scopes::{Counts, Meaning, Scope};
use csub_text::Text;
use std::alloc::AllocError;

/// What a statement sees, and the objects that are declared before it in its function.
#[derive(Drop)]
pub struct Here {
    /// The names and tags that it sees.
    pub scope: Scope,
    /// How many blocks stand round it; 1 for the parameters and the lines of a function's body.
    pub depth: u32,
    /// The names of the function's objects so far.
    pub before: Counts,
}

/// Whether a name is declared in this block already.
pub fn is_declared(here: &Here, name: &[u8]) -> bool
    ensures { result ≡ is_declared (here_of here.now) name.now }
{
    match here.scope.names.find(name) {
        None => false,
        Some(declared) => declared.depth == here.depth,
    }
}

/// What a declared object of the function means.
fn local_meaning(number: u32, ctype: Option<CType>) -> Meaning
    ensures { meaning_of result ≡ local_meaning number (option_map type_tree ctype) }
{
    match ctype {
        None => Meaning::Untyped,
        Some(ctype) => Meaning::Local(number, ctype),
    }
}

/// Declares an object of the function.
pub fn declare(here: &mut Here, name: &Text, ctype: Option<CType>) -> Result<(), AllocError>
    ensures { OnOk result (here_of here.new ≡ declaring (here_of here.old) name.now (option_map type_tree ctype)) }
{
    let count = here.before.count(name.bytes());
    if count >= 4_294_967_295 {
        return Err(AllocError);
    }
    let meaning = local_meaning(count + 1, ctype);
    here.before.add(name)?;
    here.scope.names.declare(name, here.depth, meaning)?;
    Ok(())
}

/// What stood round a block when it was entered.
#[derive(Clone, Copy)]
pub struct Outer {
    /// How many blocks stood round it.
    pub depth: u32,
    /// How many names were in scope.
    pub names: usize,
}

/// Enters a block. An `Err` is a full count.
pub fn enter(here: &mut Here) -> Result<Outer, AllocError>
    ensures depth { IfOk result (λ outer. outer.depth ≡ (here_of here.old).depth) }
    ensures names { IfOk result (λ outer. outer.names ≡ length (here_of here.old).scope.names) }
    ensures entered { OnOk result (here_of here.new ≡ entering (here_of here.old)) }
{
    let outer = Outer {
        depth: here.depth,
        names: here.scope.names.count(),
    };
    if here.depth >= 4_294_967_295 {
        return Err(AllocError);
    }
    here.depth += 1;
    Ok(outer)
}

/// Leaves a block.
pub fn leave(here: &mut Here, outer: Outer)
    ensures { here_of here.new ≡ closed (here_of here.old) outer.depth outer.names }
{
    here.scope.names.close(outer.names);
    here.depth = outer.depth;
}
