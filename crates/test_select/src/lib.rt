//! Which tests of a history have to run again.
//!
//! A test is selected where an edge that it crossed is dangerous. What is promised:
//!
//! - [`select`] gives one choice a test, in their order: the test is selected for the least dangerous
//!   edge that it crossed, and left exactly where it crossed none. Its contract has both.
//! - [`select_text`] gives the text of such choices, exactly as `specs/SelectTexts.antt` says it, and
//!   [`push_choice_line`] appends the line of one test.
#![tactic(auto)]

mod choice;
mod choosing;
mod text;

pub use choice::Choice;
pub use choosing::select;
pub use text::{count_selected, push_choice_line, select_text};
