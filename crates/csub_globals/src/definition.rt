//! The functions that a source defines, with their parameters.
ghost use Rattle.std.specs.Prelude.{◌≡◌, ◌++◌, IfOk, OnOk, map};
ghost use Rattle.csub_objects.specs.Meaning.{member_tree};
ghost use Rattle.csub_tree.specs.Declarations.{head_tree};
ghost use Rattle.csub_tree.specs.Units.{item_tree};
ghost use Rattle.csub_bodies.specs.Views.{here_of};
ghost use Rattle.csub_rules.specs.Files.{no_file};
ghost use Rattle.csub_rules.specs.Heads.{past_head};
ghost use Rattle.csub_rules.specs.Items.{past_item};
ghost use Rattle.csub_units.specs.Views.{file_of};
ghost use Rattle.csub_resolution.specs.Programs.{defined_by, defined_in, params_of};

use crate::items::declare_item;
use crate::params::lower_params;
use csub_bodies::Here;
use csub_lower::Definitions;
use csub_objects::Member;
use csub_tree::{Head, Item};
use csub_units::File;
use csub_units::heads::{check_head, enter_params, leave_params};
use std::alloc::{AllocError, Global};

/// The parameters of a function. Its name is declared then, and its parameters are known no more.
fn head_params(alloc: Global, here: &mut Here, h: &Head) -> Result<Vec<Member>, AllocError>
    ensures params { IfOk result (λ made. map member_tree made.items ≡ params_of (here_of here.old).scope (head_tree h.now)) }
    ensures past { OnOk result ((here_of here.new).scope ≡ past_head (here_of here.old).scope (head_tree h.now)) }
{
    check_head(alloc, here, h)?;
    let mark = here.scope.names.count();
    enter_params(alloc, here);
    let made = lower_params(alloc, here, h.params.as_slice())?;
    leave_params(here, mark);
    Ok(made)
}

/// Adds what an item defines, and declares what it declares.
fn note_item(
    alloc: Global,
    file: &mut File,
    found: &mut Definitions,
    item: &Item,
) -> Result<(), AllocError>
    ensures found { OnOk result (found.new ≡ found.old ++ defined_by (file_of file.old) (item_tree item.now)) }
    ensures past { OnOk result (file_of file.new ≡ past_item (file_of file.old) (item_tree item.now)) }
{
    match item {
        Item::Function(h, _, _) => {
            let params = head_params(alloc, &mut file.here, h)?;
            file.defined.add(&h.name.text)?;
            found.push(&h.name.text, params)
        }
        _ => declare_item(alloc, file, item),
    }
}

/// The functions that items define, in their order; they are declared then.
fn definitions_in(alloc: Global, file: &mut File, items: &[Item]) -> Result<Definitions, AllocError>
    ensures { IfOk result (λ found. found ≡ defined_in (file_of file.old) (map item_tree items.now)) }
{
    let mut found = Definitions::new(alloc);
    for item in items {
        note_item(alloc, file, &mut found, item)?;
    }
    Ok(found)
}

/// The functions that a source of these items defines, with their parameters, in the order of the source. An `Err` is want of
/// memory, or a full count.
pub fn definitions(alloc: Global, items: &[Item]) -> Result<Definitions, AllocError>
    ensures { IfOk result (λ found. found ≡ defined_in no_file (map item_tree items.now)) }
{
    let mut file = File::new(alloc);
    definitions_in(alloc, &mut file, items)
}
