//! Entries that stay, and results in the place of the others.
ghost use Rattle.std.specs.Prelude.{◌≡◌, IfOk, All, length};
ghost use Rattle.test_history.specs.Histories.{HaveRows};
ghost use Rattle.edge_images.specs.Images.{IsBelow};
ghost use Rattle.carry_history.specs.Laid.{tests_again, AreLaid};

use crate::moving::move_entry;
use edge_images::Image;
use std::alloc::{AllocError, Global};
use test_history::Entry;

/// Each entry that stays with the images of its edges, and the results, one for each other entry, in the places of these. An
/// `Err` is want of memory.
pub fn lay(
    alloc: Global,
    entries: &[Entry],
    stays: &[bool],
    images: &[Image],
    edges: u32,
    results: Vec<Entry>,
) -> Result<Vec<Entry>, AllocError>
    requires stays { length stays.now ≡ length entries.now }
    requires rows { HaveRows (length images.now) entries.now }
    requires below { All (IsBelow edges) images.now }
    requires results { length results.items ≡ length (tests_again entries.now stays.now) }
    ensures { IfOk result (λ laid. AreLaid edges images.now entries.now stays.now results.items laid.items) }
{
    let mut laid = Vec::with_capacity(alloc, entries.len())?;
    let mut results = results.into_iter();
    for (place, entry) in entries.iter().enumerate() {
        if stays[place] {
            laid.push(move_entry(alloc, entry, images, edges)?)?;
        } else {
            let Some(result) = results.next() else {
                unreachable!();
            };
            laid.push(result)?;
        }
    }
    Ok(laid)
}
