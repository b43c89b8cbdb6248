//! The second pass over expressions: the resolved trees of those that break no rule.
//!
//! What is promised, in terms of `csub_resolution/specs`: [`lower`] makes of an expression the place, the value and the kind or
//! type that it stands for, and appends the calls of the source's functions that are made before it, in their order;
//! [`lower_number`] gives the value of a number alone. Both take time in proportion to the expression, and fail for want of
//! memory alone. [`Definitions`] has the functions that a source defines, by name.
#![tactic(auto)]

mod argument;
mod boxes;
mod call;
pub mod definitions;
pub mod expression;
mod format;
pub mod known;
pub mod made;
mod name;
mod node;
pub mod position;

pub use call::{exits_with, is_own_call};
pub use definitions::Definitions;
pub use expression::{lower, lower_number};
pub use known::Known;
pub use made::Made;
pub use position::first_token;
