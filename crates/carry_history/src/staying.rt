//! Which entries stay, and the tests of the others.
ghost use Rattle.std.specs.Prelude.{◌≡◌, ◌↔◌, IfOk, IsTrue, List, length};
ghost use Rattle.test_history.specs.Histories.{HaveRows};
ghost use Rattle.carry_history.specs.Carried.{Stays};
ghost use Rattle.edge_images.specs.declared.image.Image.{Image};
ghost use Rattle.carry_history.specs.Laid.{is_one, AreUnsettled, AreStays, tests_again};

use edge_images::Image;
use edge_trace::EdgeRow;
use std::alloc::{AllocError, Global};
use test_history::Entry;
use test_select::Choice;
use test_suite::{Test, copy_test};

/// Whether an edge has one image.
fn is_one(image: Image) -> bool
    ensures { result ≡ is_one image }
{
    matches!(image, Image::One(_))
}

/// The edges that have no image or several. An `Err` is want of memory.
fn list_unsettled(alloc: Global, images: &[Image], edges: u32) -> Result<EdgeRow, AllocError>
    requires { length images.now ≡ edges }
    ensures { IfOk result (AreUnsettled images.now) }
{
    let mut unsettled = EdgeRow::new(alloc, edges)?;
    for (edge, image) in images.iter().enumerate() {
        if !is_one(*image) {
            unsettled.set(edge as u32);
        }
    }
    Ok(unsettled)
}

/// Whether an entry stays; `unsettled` are the edges that have not one image.
fn stays(entry: &Entry, choice: Choice, unsettled: &EdgeRow) -> bool
    requires { length entry.now.crossed ≡ length unsettled.now }
    ensures { (images : List Image) → AreUnsettled images unsettled.now → IsTrue result ↔ Stays images entry.now choice }
{
    match choice {
        Choice::Left => entry.crossed().meets(unsettled).is_none(),
        Choice::Selected(_) => false,
    }
}

/// For each entry, whether it stays. An `Err` is want of memory.
pub fn list_stays(
    alloc: Global,
    entries: &[Entry],
    choices: &[Choice],
    images: &[Image],
    edges: u32,
) -> Result<Vec<bool>, AllocError>
    requires choices { length choices.now ≡ length entries.now }
    requires images { length images.now ≡ edges }
    requires rows { HaveRows edges entries.now }
    ensures { IfOk result (λ stays. AreStays images.now entries.now choices.now stays.items) }
{
    let unsettled = list_unsettled(alloc, images, edges)?;
    let mut flags = Vec::with_capacity(alloc, entries.len())?;
    for (place, entry) in entries.iter().enumerate() {
        flags.push(stays(entry, choices[place], &unsettled))?;
    }
    Ok(flags)
}

/// The tests of the entries that don't stay, in order. An `Err` is want of memory.
pub fn list_again(alloc: Global, entries: &[Entry], stays: &[bool]) -> Result<Vec<Test>, AllocError>
    requires { length stays.now ≡ length entries.now }
    ensures { IfOk result (λ tests. tests.items ≡ tests_again entries.now stays.now) }
{
    let mut tests = Vec::new(alloc);
    for (place, entry) in entries.iter().enumerate() {
        if !stays[place] {
            tests.push(copy_test(alloc, entry.test())?)?;
        }
    }
    Ok(tests)
}
