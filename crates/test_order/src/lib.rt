//! The order in which the selected tests of a history add the most edges.
//!
//! It is the order of additional edge coverage, in the field's words "additional greedy" (Rothermel, Untch, Chu and
//! Harrold, IEEE Transactions on Software Engineering 27(10), 2001). What is promised:
//!
//! - [`order`] gives the places of the selected tests, exactly as `specs/Orders.antt` says the order. Its contract is the
//!   whole promise. It doesn't name the number of workers, so an `Ok` is the same for each of them.
//! - [`order_text`] gives the text of such places, exactly as `specs/OrderTexts.antt` says it.
//! - [`laws::order_is_determined`]: a history and its choices have one order and no other.
#![tactic(auto)]

mod counting;
pub mod laws;
mod ordering;
mod placed;
mod text;

pub use ordering::order;
pub use placed::Placed;
pub use text::order_text;
