//! What a valid program is.
//!
//! `specs/Valid` says which programs are valid, by the definitions of `csub_semantics`. Whether a program is one is decided
//! in `csub_decisions`; that the program of an accepted source is one is a law of `program_validity`.
//!
//! What is promised of the code: [`places`] gives the types of places. [`role`] has the types of the code that `specs/Valid`
//! speaks of. Proofs above cite `proofs/LawsLists`: lists of code values, read as the lists of what they stand for.
#![tactic(auto)]

pub mod places;
pub mod role;
