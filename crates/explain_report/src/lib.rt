//! What a walk of two programs found, as text.
//!
//! What is promised:
//!
//! - [`walk_text`] gives exactly the text that `specs/WalkTexts.antt` says, with each dangerous edge of the old program at its place in
//!   the source.
//! - [`explain_text`] gives for one test the text that `specs/Explanations.antt` says: for a test that is selected a book of facts by
//!   which its edge is reached, each justified by earlier ones and each needed, and the way out at which the versions part.
//! - [`trim`] gives the facts of a list that are wanted and those on which they rest, and no others; a part of a book is a book.
//!
//! Proofs above cite `proofs/LawsTrims`: the reasons of a book name earlier facts.
#![tactic(auto)]

mod book;
mod edge;
mod explain;
mod marks;
mod part;
mod report;
mod shown;
mod told;
mod trimming;

pub use edge::push_exit;
pub use explain::explain_text;
pub use report::walk_text;
pub use trimming::trim;
