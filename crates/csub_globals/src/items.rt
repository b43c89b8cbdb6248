//! What items declare.
ghost use Rattle.std.specs.Prelude.{◌≡◌, ◌∷◌, OnOk};
ghost use Rattle.csub_tree.specs.Declarations.{head_tree};
ghost use Rattle.csub_tree.specs.Units.{item_tree};
ghost use Rattle.csub_rules.specs.Heads.{past_head};
ghost use Rattle.csub_rules.specs.Items.{past_item};
ghost use Rattle.csub_units.specs.Views.{file_of};

use csub_tree::{Head, Item};
use csub_units::File;
use csub_units::enums::check_enum;
use csub_units::heads::check_head;
use csub_units::objects::check_declaration;
use csub_units::structs::check_struct;
use std::alloc::{AllocError, Global};

/// Declares and defines a function.
fn define(alloc: Global, file: &mut File, h: &Head) -> Result<(), AllocError>
    ensures { OnOk result (file_of file.new ≡ record { scope = past_head (file_of file.old).scope (head_tree h.now); defined = h.now.name.text ∷ (file_of file.old).defined }) }
{
    check_head(alloc, &mut file.here, h)?;
    file.defined.add(&h.name.text)?;
    Ok(())
}

/// Declares what an item declares, by the first pass over it; the bodies of functions are left out. What it tells of rules is of
/// no account here. An `Err` is want of memory, or a full count.
pub fn declare_item(alloc: Global, file: &mut File, item: &Item) -> Result<(), AllocError>
    ensures { OnOk result (file_of file.new ≡ past_item (file_of file.old) (item_tree item.now)) }
{
    match item {
        Item::Struct(tag, ds) => {
            check_struct(alloc, &mut file.here.scope, tag, ds.as_slice())?;
            Ok(())
        }
        Item::Enum(tag, constants) => {
            check_enum(&mut file.here.scope, tag, constants.as_slice())?;
            Ok(())
        }
        Item::Object(d) => {
            check_declaration(alloc, &mut file.here.scope, d)?;
            Ok(())
        }
        Item::Prototype(h) => {
            check_head(alloc, &mut file.here, h)?;
            Ok(())
        }
        Item::Function(h, _, _) => define(alloc, file, h),
    }
}
