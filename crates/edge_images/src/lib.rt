//! Images of old edges in a changed program, and what a run that crosses edges of one image each is on it.
//!
//! An image of an old edge is the same way out of a new point that the walk of both programs reaches together with the old
//! edge's point (`csub_semantics/specs/Books`). What is promised:
//!
//! - [`images`] says of each old edge whether it has no image, one alone, and which, or several (`specs/Images.antt`).
//! - [`laws::runs_carry_over`]: where an old run crosses no dangerous edge and only edges of one image alone, the new run has
//!   the same output, status and number of turns, and crosses just the images (`specs/Crossings.antt`).
//!
//! `specs/Partly.antt` is for the functions inside. Proofs above cite `proofs/LawsLeading`: the edges that a run crosses have numbers.
#![tactic(auto)]

mod finding;
mod image;
pub mod laws;

pub use finding::images;
pub use image::Image;
