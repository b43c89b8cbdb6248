//! Declared names: their types, the rules on these, and initialisers.
//!
//! What is promised: [`base_type`] and [`check_base`] give the type that a declaration begins with and what is wrong with
//! it, [`check_slot`] the type of a declared object and the first rule that its declarator breaks, and [`check_init`] the
//! first rule that an initialiser breaks, exactly as `base_type`, `base_fault`, `object_type`, `slot_fault` and `init_fault`
//! of the definitions of rules (`csub_rules`) say. Each takes time in proportion to what it looks at. [`base_type`] and
//! [`check_slot`] have an `Err`, which is want of memory, or a full count of those that share a type; [`check_base`] and
//! [`check_init`] have none.
#![tactic(auto)]

pub mod base;
pub mod init;
pub mod slot;

pub use base::{base_type, check_base};
pub use init::check_init;
pub use slot::{Slot, check_slot};
