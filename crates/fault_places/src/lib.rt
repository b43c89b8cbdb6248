//! Laws of places: where a source is refused, the place that is told lies in it.
//!
//! The crate has proofs alone, which crates above cite. `specs/Within` says that the places of a tree lie within so many bytes.
//! `proofs/LawsSpelled` shows it of what the tokens of a source spell, within the bytes of the source, and of the tokens
//! themselves. `LawsFaults` has that the first fault of a tree lies where the tree's places lie. `LawsPlaces` joins the two.
#![tactic(auto)]
