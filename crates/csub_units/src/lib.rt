//! The first pass over items and whole sources: the first rule that they break.
//!
//! What is promised: [`check_unit`] gives the fault of a whole source as `unit_fault` of the definitions of rules (`csub_rules`)
//! says, and [`check_item`] that of an item in what is declared before it, a [`File`], as `item_fault` says, which it declares as
//! `past_item` says. They take time in proportion to the source and the types that it compares, save for a hash of each name. An
//! `Err` is want of memory, or a full count; [`File::new`], `heads::{number_of, enter_params, leave_params}` and
//! `params::check_param` have none, every other call has one.
//!
//! Proofs above cite `proofs/LawsLeaving`: what is declared behind the scope of a function's parameters.
#![tactic(auto)]

pub mod enums;
pub mod file;
pub mod heads;
pub mod items;
pub mod objects;
pub mod params;
pub mod structs;
pub mod unit;

pub use file::File;
pub use items::check_item;
pub use unit::check_unit;
