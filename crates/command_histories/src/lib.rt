//! The texts of the commands that make something of a history: `migrate`, `order` and `carry`.
//!
//! What is promised stands in the contracts of [`migrated_text`] (`specs/Migrations`), [`ordered_text`] (`specs/Orders`) and
//! [`carried_text`] (`specs/Carried`): each text exactly, and each refusal for its cause. `specs/Steps` is for the functions
//! inside.
#![tactic(auto)]

mod carry;
mod migrate;
mod order;

pub use carry::carried_text;
pub use migrate::migrated_text;
pub use order::ordered_text;
