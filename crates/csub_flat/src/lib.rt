//! Flat copies of programs: labels with numbered slots in place of the names of objects.
//!
//! The objects and the temporaries of a function have slots in its frame, one after another, and the objects of file
//! scope have slots of their own in the same way (`specs/Frames`). A flat label is the label of a point with the slots of
//! what it names (`specs/Trees`, `Flatten`), so that a run looks no name up; an initialiser is the list of its steps over
//! slots, and an array parameter the slot that says where its array is.
//!
//! What is promised of the code: [`flatten_program`] gives for each point of a valid program a copy of its label, in
//! which every object has its place in the frame of its function or among the globals, where its ways out lead
//! (`specs/Ways`), and the counts of slots of the globals and of the greatest frame (`IsFlatOf` of `specs/Copies`). Proofs
//! above cite `proofs/LawsSites`, points and functions by their numbers and names; `proofs/LawsOrder`, numbers in order;
//! `proofs/LawsSized`, the types of places; `proofs/LawsRows`, rows of expressions as lists; and `proofs/LawsThreads`,
//! that workers may share a flat program.
#![tactic(auto)]

pub mod flat;
mod flatten;
mod frame;
mod fused;
mod globals;
mod inits;
mod places;
pub mod program;
mod scope;
pub mod ways;

pub use flat::{
    FlatArg, FlatCall, FlatConst, FlatExpr, FlatGiven, FlatLabel, FlatLocal, FlatPart, FlatPlace,
    FlatVariable, FlatWrite, Form,
};
pub use program::{FlatPoint, FlatProgram, Sizes, first_slots, flatten_program};
pub use ways::{CaseWay, PointWays, way_along};
