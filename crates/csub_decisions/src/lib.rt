//! Whether functions and objects of file scope are a valid program. The program of an accepted source is known to be valid,
//! so no command asks: this is for tests, and for whoever makes programs otherwise.
//!
//! Which programs are valid says `specs/Valid` of `csub_validity`; `specs/Checks` and `specs/ProgramChecks` name what the
//! decisions here are made of.
//!
//! What is promised of the code: [`MakeProgram`] makes a program exactly where its functions are valid. [`expressions`] says
//! exactly which expressions are valid, [`objects`] exactly which objects a function has, and whether they differ, [`calls`]
//! exactly which calls fit their callees, [`inits`] exactly which initialisers fit their objects, [`contents`] exactly which
//! numbers an object of a type may begin with, and [`tags`] whether structs with one tag have the same members; [`places`]
//! says which places are those of numbers. [`site`] has the types of what these decisions are asked of.
#![tactic(auto)]

pub mod calls;
pub mod contents;
pub mod expressions;
mod formats;
pub mod inits;
mod making;
pub mod names;
pub mod objects;
pub mod places;
pub mod site;
pub mod tags;
mod valid;

pub use making::MakeProgram;
