//! The names of the globals that a label names.
ghost use Rattle.std.specs.Prelude.{◌≡◌, [], ◌∷◌, IfOk, OnOk, map};
ghost use Rattle.std.specs.List.{flat_map};
ghost use Rattle.csub_semantics.specs.Trees.{owner_tree};
ghost use Rattle.csub_semantics.specs.Labels.{label_tree};
ghost use Rattle.csub_semantics.specs.Globals.{owner_names, label_names, ordered};
ghost use Rattle.label_code.specs.Uses.{use_names, use_tree};

use crate::uses::{TypeUse, uses_of};
use csub_semantics::{Label, Owner};
use std::alloc::{AllocError, Global};
use std::collections::BTreeSet;
use std::marker::Model;

/// Names, each once, in the order of their bytes.
#[derive(Drop)]
pub struct NameSet<'a> {
    pub names: BTreeSet<&'a [u8]>,
}

impl<'a> Model for NameSet<'a> {
    ghost use Rattle.std.specs.Prelude.{ℕ, List, map};

    ghost Value = { List (List ℕ) };

    ghost view = { λ set. map (λ name. name.now) set.names.keys };
}

/// The names of the globals in a label. An `Err` is want of memory.
pub fn global_names<'a>(alloc: Global, label: &'a Label) -> Result<NameSet<'a>, AllocError>
    ensures { IfOk result (λ set. set ≡ ordered [] (label_names (label_tree label.now))) }
{
    let uses = uses_of(alloc, label)?;
    let mut set = NameSet {
        names: BTreeSet::new(alloc),
    };
    add_uses(&mut set, &uses)?;
    Ok(set)
}

fn add_uses<'a>(set: &mut NameSet<'a>, uses: &[TypeUse<'a>]) -> Result<(), AllocError>
    ensures { OnOk result (set.new ≡ ordered set.old (flat_map use_names (map use_tree uses.now))) }
{
    for used in uses {
        add_use(set, *used)?;
    }
    Ok(())
}

fn add_use<'a>(set: &mut NameSet<'a>, used: TypeUse<'a>) -> Result<(), AllocError>
    ensures { OnOk result (set.new ≡ ordered set.old (use_names (use_tree used.entry))) }
{
    match used {
        TypeUse::Object(owner, _) => add_owner(set, owner),
        TypeUse::Callee(_) => Ok(()),
    }
}

fn add_owner<'a>(set: &mut NameSet<'a>, owner: &'a Owner) -> Result<(), AllocError>
    ensures { OnOk result (set.new ≡ ordered set.old (owner_names (owner_tree owner.now))) }
{
    match owner {
        Owner::Global(name) => add_name(set, name.bytes()),
        Owner::Local(_, _) => Ok(()),
    }
}

fn add_name<'a>(set: &mut NameSet<'a>, name: &'a [u8]) -> Result<(), AllocError>
    ensures { OnOk result (set.new ≡ ordered set.old (name.now ∷ [])) }
{
    set.names.insert(name)?;
    Ok(())
}
