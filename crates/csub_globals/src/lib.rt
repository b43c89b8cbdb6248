//! The second pass over the items of a source, the bodies of functions aside: what it declares, and its objects of file scope.
//!
//! What is promised, in terms of `csub_resolution/specs`: [`definitions`] gives the functions that a source defines with their
//! parameters, as `defined_in` says; [`globals`] its objects of file scope with their initial contents, as `program_of` says, and
//! [`global_cells`] counts the cells of those objects; [`initial`] gives the numbers that such an object begins with, one for each
//! of its cells, as `initial` says; [`lower_params`] the parameters of a definition, as `params` says; [`with_start`] puts `#start`
//! before functions, as `start` says; and [`declare_item`] declares what an item declares, as `past_item` of `csub_rules` says.
//! Each takes time in proportion to what it looks at (`globals` and `initial` to the cells as well) and the types that it
//! compares, save for a hash of each name, and fails for want of memory, or a full count, alone.
//!
//! Proofs above cite `proofs/LawsLists`: lists, one element after the other and as a whole.
#![tactic(auto)]

mod definition;
mod global;
pub mod initial_numbers;
mod items;
mod params;
mod start;

pub use definition::definitions;
pub use global::{global_cells, globals};
pub use initial_numbers::{contents, initial};
pub use items::declare_item;
pub use params::lower_params;
pub use start::with_start;
