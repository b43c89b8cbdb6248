//! Labels, parts and statements of programs by what they are made of, and the temporaries that parts have.
//!
//! What is promised: the functions of [`part`], [`init`] and [`node`] give the label, the part, the initial values or the statement
//! that is put together of what they are given, as the definitions of `csub_semantics` have it; those with a place name the word
//! there by it, as `csub_resolution` says. [`part_temps`] and [`lines_temps`] count the temporaries of a part, and the most of the
//! parts of lines, as `part_temps` and `most_temps` of `csub_resolution` say. All but the counts take time in proportion to what
//! they copy, the counts in proportion to the statements; an `Err` is want of memory, or a full count.
#![tactic(auto)]

mod boxes;
mod init;
pub mod node;
pub mod part;
pub mod temps;

pub use init::{list_value, one_value};
pub use temps::{line_temps, lines_temps, part_temps};
