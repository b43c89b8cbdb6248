//! An entry with the images of its edges.
ghost use Rattle.std.specs.Prelude.{ℕ, ◌≡◌, ◌<◌, ◌↔◌, ◌⊎◌, IfOk, IsTrue, All, length};
ghost use Rattle.edge_trace.specs.Rows.{has};
ghost use Rattle.edge_images.specs.declared.image.Image.TheVariants.{One};
ghost use Rattle.edge_images.specs.Images.{IsBelow};
ghost use Rattle.carry_history.specs.Carried.{AreImagesOf, IsMoved};

use edge_images::Image;
use edge_trace::EdgeRow;
use std::alloc::{AllocError, Global};
use test_history::Entry;
use test_suite::copy_test;

/// Adds the image of an edge, if it is crossed and has one image.
fn move_edge(crossed: &EdgeRow, edge: u32, image: Image, moved: &mut EdgeRow)
    requires edge { edge < length crossed.now }
    requires below { IsBelow (length moved.old) image }
    ensures edges { length moved.new ≡ length moved.old }
    ensures adds { (i : ℕ) → IsTrue (has moved.new i) ↔ (IsTrue (has moved.old i) ⊎ (IsTrue (has crossed.now edge) × (image ≡ One i))) }
{
    if let Image::One(to) = image {
        if crossed.has(edge) {
            moved.set(to);
        }
    }
}

/// The images of a row's edges, in a row of so many edges. An `Err` is want of memory.
fn move_row(
    alloc: Global,
    crossed: &EdgeRow,
    images: &[Image],
    edges: u32,
) -> Result<EdgeRow, AllocError>
    requires images { length images.now ≡ length crossed.now }
    requires below { All (IsBelow edges) images.now }
    ensures { IfOk result (AreImagesOf edges images.now crossed.now) }
{
    let mut moved = EdgeRow::new(alloc, edges)?;
    for edge in 0..crossed.edges() {
        move_edge(crossed, edge, images[edge as usize], &mut moved);
    }
    Ok(moved)
}

/// The entry of the same test and the same results with the images of its edges. An `Err` is want of memory.
pub fn move_entry(
    alloc: Global,
    entry: &Entry,
    images: &[Image],
    edges: u32,
) -> Result<Entry, AllocError>
    requires images { length images.now ≡ length entry.now.crossed }
    requires below { All (IsBelow edges) images.now }
    ensures { IfOk result (IsMoved edges images.now entry.now) }
{
    let crossed = move_row(alloc, entry.crossed(), images, edges)?;
    let output = entry.output().to_vec(alloc)?;
    let test = copy_test(alloc, entry.test())?;
    Ok(Entry::new(test, entry.status(), entry.turns(), output, crossed))
}
