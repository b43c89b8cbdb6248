//! The second pass over statements and bodies of functions.
//!
//! What is promised, in terms of `csub_resolution/specs`: [`lower_statement`] makes of a statement what it stands for, as `line`
//! says, declares and appends its objects, as `past` and `locals` say, and leaves its blocks; [`lower_body`] does so for the lines
//! of a function's body, and counts the temporaries of its parts, as `most_temps` says. Both take time in proportion to the
//! statements, save for a hash of each name, and fail for want of memory, or a full count, alone. Which statements
//! can be resolved, whatever stands round them, says `specs/Resolvable`; `proofs/LawsResolvable` has that those which break no
//! rule can.
#![tactic(auto)]

mod block;
pub mod body;
mod node;
pub mod statement;

pub use body::{Body, lower_body};
pub use statement::{Within, lower_statement};
