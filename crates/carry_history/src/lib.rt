//! A history brought from an old program to a changed one.
//!
//! [`carry`] gives the history that belongs to the new source without running what need not run: an entry whose test was
//! left, and each of whose edges has one image, is kept, with the images as its edges; the test of each other entry runs on
//! the new program. Its contract is the whole promise (`specs/Carried.antt`). That the outcome is what recording on the new
//! program gives, where the old history was recorded, says [`laws::carried_is_recorded`] (`specs/Recorded.antt`).
//!
//! Which edges are images of which say [`Image`] and [`images`], which the crate gives on; `specs/Laid.antt` is for the
//! functions inside.
#![tactic(auto)]

mod carrying;
pub mod laws;
mod laying;
mod moving;
mod staying;

pub use carrying::carry;
pub use edge_images::{Image, images};
