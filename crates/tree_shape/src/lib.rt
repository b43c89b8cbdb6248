//! Units without their places: the tests of the reader compare units of sources that stand in other lines.
//!
//! What is promised: [`same_shape`] says exactly whether two units differ in nothing but their places. `specs/Shape` says
//! what a tree without its places is.
#![tactic(auto)]

mod shape;

pub use shape::same_shape;
