//! What is declared at file scope (C11 6.2.1p4, 6.9).
ghost use Rattle.std.specs.Prelude.{◌≡◌, OnOk, option_map};
ghost use Rattle.csub_objects.specs.Types.{members_of};
ghost use Rattle.csub_scopes.specs.Meanings.{meaning_of, scope_of};
ghost use Rattle.csub_rules.specs.Files.{is_known, name_fault, naming, no_file, tag_fault, tagging};
ghost use Rattle.csub_units.specs.Views.{file_of};

use csub_bodies::Here;
use csub_objects::Members;
use csub_rules::{Fault, earlier, fault_if, is_reserved};
use csub_scopes::{Counts, Meaning, Scope};
use csub_text::Text;
use csub_tree::Name;
use std::alloc::{AllocError, Global};

/// What an item sees.
#[derive(Drop)]
pub struct File {
    /// The names and the tags that are declared before it, and round it no block.
    pub here: Here,
    /// The functions that are defined before it.
    pub defined: Counts,
}

impl File {
    /// What the first item sees: nothing.
    pub fn new(alloc: Global) -> File
        ensures { file_of result ≡ no_file }
    {
        File {
            here: Here {
                scope: Scope::new(alloc),
                depth: 0,
                before: Counts::new(alloc),
            },
            defined: Counts::new(alloc),
        }
    }
}

/// Whether a name of file scope is declared already.
pub(crate) fn is_known(scope: &Scope, name: &[u8]) -> bool
    ensures { result ≡ is_known (scope_of scope.now) name.now }
{
    scope.names.find(name).is_some()
}

/// M2 and M3 of a name that is declared at file scope.
pub(crate) fn check_name(scope: &Scope, x: &Name) -> Option<Fault>
    ensures { result ≡ name_fault (scope_of scope.now) x.now }
{
    let twice = fault_if(is_known(scope, x.text.bytes()), 2, x.span);
    let reserved = fault_if(is_reserved(x.text.bytes()), 3, x.span);
    earlier(twice, reserved)
}

/// M2 and M3 of a tag.
pub(crate) fn check_tag(scope: &Scope, x: &Name) -> Option<Fault>
    ensures { result ≡ tag_fault (scope_of scope.now) x.now }
{
    let twice = fault_if(scope.tags.find(x.text.bytes()).is_some(), 2, x.span);
    let reserved = fault_if(is_reserved(x.text.bytes()), 3, x.span);
    earlier(twice, reserved)
}

/// Declares a name at file scope. An `Err` is want of memory.
pub fn declare_name(scope: &mut Scope, name: &Text, meaning: Meaning) -> Result<(), AllocError>
    ensures { OnOk result (scope_of scope.new ≡ naming (scope_of scope.old) name.now (meaning_of meaning)) }
{
    scope.names.declare(name, 0, meaning)
}

/// Declares a tag, of a struct with its members.
pub(crate) fn declare_tag(
    scope: &mut Scope,
    tag: &Text,
    members: Option<Members>,
) -> Result<(), AllocError>
    ensures { OnOk result (scope_of scope.new ≡ tagging (scope_of scope.old) tag.now (option_map members_of members)) }
{
    scope.tags.declare(tag, members)
}
