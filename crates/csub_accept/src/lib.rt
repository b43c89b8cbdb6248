//! From the bytes of a source to its program.
//!
//! What is promised stands in the contract of [`accept`]: a program is given exactly for an accepted source (`Accepted` of
//! `csub_answers`), and it is the only one of that source; a refusal names the first stage that refuses, with the place or the
//! count that it tells (`HasCause`), and such a place lies in the source or at its end (`TellsWithin`). The only other answer is
//! want of memory.
//!
//! [`resolve`] makes the program of a unit that a text spells: a program is given for one that breaks no rule and passes no limit,
//! and it is the one that the source stands for (`program_of` of `csub_resolution`); a refusal names the first rule that is broken
//! (`unit_fault` of `csub_rules`, which is the one that stands first in the source), or where none is the first limit that is
//! passed (`limit_passed` of `csub_limits`).
#![tactic(auto)]

pub mod resolver;
pub mod stages;

pub use csub_answers::{LexKind, ResolveError, SourceError};
pub use resolver::resolve;
pub use stages::accept;
