//! Sources as wholes.
ghost use Rattle.std.specs.Prelude.{◌≡◌, IfOk, map};
ghost use Rattle.csub_tree.specs.Units.{item_tree, unit_tree};
ghost use Rattle.csub_rules.specs.Files.{no_file};
ghost use Rattle.csub_units.specs.Views.{file_of};
ghost use Rattle.csub_rules.specs.Units.{no_place, undefined_fault, undefineds_fault, unit_fault};

use crate::file::File;
use crate::items::check_items;
use csub_bodies::stands_in;
use csub_rules::{Fault, earlier, fault_if};
use csub_scopes::Counts;
use csub_text::Span;
use csub_tree::{Item, Unit};
use std::alloc::{AllocError, Global};

/// M19 of a prototype whose function is none of those that are defined.
fn check_defined(defined: &Counts, item: &Item) -> Option<Fault>
    ensures { result ≡ undefined_fault defined.now (item_tree item.now) }
{
    match item {
        Item::Struct(_, _) => None,
        Item::Enum(_, _) => None,
        Item::Object(_) => None,
        Item::Prototype(h) => {
            let undefined = !stands_in(defined, h.name.text.bytes());
            fault_if(undefined, 19, h.name.span)
        }
        Item::Function(_, _, _) => None,
    }
}

/// M19 of functions that are declared and not defined.
fn check_all_defined(defined: &Counts, items: &[Item]) -> Option<Fault>
    ensures { result ≡ undefineds_fault defined.now (map item_tree items.now) }
{
    let mut least = None;
    for item in items {
        least = earlier(least, check_defined(defined, item));
    }
    least
}

/// Where a missing `main` is told, which has no place: before the first byte.
fn no_place() -> Span
    ensures { result ≡ no_place }
{
    Span { start: 0, end: 0 }
}

/// The first rule that the items of a source break; nothing is declared before them.
fn check_in(alloc: Global, file: &mut File, items: &[Item]) -> Result<Option<Fault>, AllocError>
    requires { file_of file.old ≡ no_file }
    ensures { IfOk result (λ fault. fault ≡ unit_fault (record { items = map item_tree items.now })) }
{
    let broken = check_items(alloc, file, items)?;
    let undefined = check_all_defined(&file.defined, items);
    let has_main = stands_in(&file.defined, b"main".as_slice());
    let missing = fault_if(!has_main, 19, no_place());
    Ok(earlier(broken, undefined).or(missing))
}

/// The first rule that a source breaks: the one that stands first, and of those at one place the one of the least number;
/// where none is broken, M19 with the empty span at byte 0 if there is no `main`. It takes time in proportion to the source
/// and the types that it compares. An `Err` is want of memory, or a full count.
pub fn check_unit(alloc: Global, unit: &Unit) -> Result<Option<Fault>, AllocError>
    ensures { IfOk result (λ fault. fault ≡ unit_fault (unit_tree unit.now)) }
{
    let mut file = File::new(alloc);
    check_in(alloc, &mut file, unit.items.as_slice())
}
