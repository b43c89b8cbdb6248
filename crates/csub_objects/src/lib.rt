//! The types of C objects, shared so that a copy of a type costs nothing, whatever its size.
//!
//! What is promised: a [`CType`] stands for one tree of `specs/Types`, and each function gives what the definition of
//! its name says of that tree: [`cells`], [`element_type`], [`array_length`], [`member_type`], [`first_cell`],
//! [`part_type`], [`has_parts`] and [`is_sized`]. [`same_type`] is true exactly where the trees are equal, and
//! [`copy_type`] gives the same tree. [`struct_of`] makes a struct type exactly where its members have different names.
//! Laws of the definitions are the contracts of [`laws`].
//!
//! Proofs above cite `proofs/LawsTypes` and `LawsMembers`, the laws of types and of lists of members; `LawsParts`, where the
//! parts of an object lie in it; and `LawsThreads`, that types may cross threads.
#![tactic(auto)]

mod count;
pub mod laws;
mod look;
mod make;
mod names;
mod same;
pub mod types;

pub use count::{cells, dimensions, is_sized, levels};
pub use look::{
    array_length, element_type, first_cell, has_parts, is_number, member_type, number_kind,
    part_type,
};
pub use make::{array_of, copy_type, loose_of, struct_of};
pub use same::{same_members, same_type};
pub use types::{CType, Element, Member, Members};
