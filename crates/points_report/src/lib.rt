//! The points and the edges of a program, as text.
//!
//! What is promised: [`points_text`] gives exactly the text that `specs/PointTexts.antt` says, with each point and each edge of the
//! program under its number, in the order of the numbers. These are the numbers that `walk`, `select`, `explain` and histories name.
#![tactic(auto)]

mod edge;
mod point;
mod report;

pub use report::points_text;
