//! Finding the images by the facts of a walk.
ghost use Rattle.std.specs.Prelude.{ℕ, ◌≡◌, ◌<◌, ◌+◌, All, IfOk, List, MatchOption, Some, length, slice_get};
ghost use Rattle.csub_semantics.specs.Syntax.{ProgramTree};
ghost use Rattle.flow_graph.specs.Graph.{HasProgram, IsGraphOf, edge_count, point_count};
ghost use Rattle.dual_walk.specs.declared.fact.Fact.{Fact};
ghost use Rattle.dual_walk.specs.Books.{IsNamed, LeavesFrom};
ghost use Rattle.call_walk.specs.Walks.{IsWalk};
ghost use Rattle.edge_images.specs.Images.{AreImages, IsBelow};
ghost use Rattle.edge_images.specs.Partly.{Answers, IsImageBefore, IsImageBy, Notes};

use crate::image::Image;
use call_walk::{Fact, WalkResult};
use flow_graph::Graph;
use std::alloc::{AllocError, Global};

/// The edge that leaves a fact's new point by the way out of an edge that leaves its old point.
fn image_by(old: &Graph, new: &Graph, from: Fact, edge: u32) -> Option<u32>
    requires edge { edge < edge_count old.now }
    requires new { from.new < point_count new.now }
    ensures { (P P' : ProgramTree) → IsGraphOf old.now P → IsGraphOf new.now P' → IsNamed P P' from → LeavesFrom P edge from.old →
        MatchOption result ((i : ℕ) → IsImageBy P P' from edge i → ⊥) (IsImageBy P P' from edge) }
{
    new.edge_number(from.new, old.edge_at(edge).exit)
}

/// Adds the image that an edge has by a fact, if it has one.
fn note_edge(old: &Graph, new: &Graph, from: Fact, edge: u32, images: &mut Vec<Image>)
    requires edge { edge < edge_count old.now }
    requires new { from.new < point_count new.now }
    requires named { (P P' : ProgramTree) → IsGraphOf old.now P → IsGraphOf new.now P' → IsNamed P P' from }
    requires leaves { (P : ProgramTree) → IsGraphOf old.now P → LeavesFrom P edge from.old }
    requires edges { length images.old.items ≡ edge_count old.now }
    ensures edges { length images.new.items ≡ edge_count old.now }
    ensures notes { (P P' : ProgramTree) → IsGraphOf old.now P → IsGraphOf new.now P' → Notes P P' from edge images.old.items images.new.items }
{
    if let Some(image) = image_by(old, new, from, edge) {
        images[edge as usize] = images[edge as usize].with(image);
    }
}

/// Adds the image of each edge that leaves a fact's old point.
fn note(old: &Graph, new: &Graph, from: Fact, images: &mut Vec<Image>)
    requires old { from.old < point_count old.now }
    requires new { from.new < point_count new.now }
    requires named { (P P' : ProgramTree) → IsGraphOf old.now P → IsGraphOf new.now P' → IsNamed P P' from }
    requires edges { length images.old.items ≡ edge_count old.now }
    ensures edges { length images.new.items ≡ edge_count old.now }
    ensures noted { (P P' : ProgramTree) (facts : List Fact) (n : ℕ) → IsGraphOf old.now P → IsGraphOf new.now P' → slice_get facts n ≡ Some from →
        Answers images.old.items (IsImageBefore P P' facts n) → Answers images.new.items (IsImageBefore P P' facts (n + 1)) }
{
    for edge in old.edges_of(from.old) {
        note_edge(old, new, from, edge, images);
    }
}

/// Each graph is that of a valid program.
fn have_programs(old: &Graph, new: &Graph)
    ensures old { HasProgram old.now }
    ensures new { HasProgram new.now }
{
    old.points();
    new.points();
}

/// How many images each edge of an old program has in a new one, and which where it is one alone, by the numbers of both
/// graphs; `walked` is what the walk of these graphs gave. An `Err` is want of memory.
///
/// An exit is looked for once for each edge of each reached pair's old point, as [`Graph::way_out`] does it; the memory is
/// that of the answer.
pub fn images(
    alloc: Global,
    old: &Graph,
    new: &Graph,
    walked: &WalkResult,
) -> Result<Vec<Image>, AllocError>
    requires walk { (P P' : ProgramTree) → IsGraphOf old.now P → IsGraphOf new.now P' → IsWalk P P' walked.now }
    ensures images { IfOk result (λ images. (P P' : ProgramTree) → IsGraphOf old.now P → IsGraphOf new.now P' → AreImages P P' images.items) }
    ensures edges { IfOk result (λ images. length images.items ≡ edge_count old.now) }
    ensures below { IfOk result (λ images. All (IsBelow (edge_count new.now)) images.items) }
{
    have_programs(old, new);
    let mut images = vec![in alloc; Image::Absent; old.edges() as usize]?;
    for from in &walked.facts {
        note(old, new, *from, &mut images);
    }
    Ok(images)
}
