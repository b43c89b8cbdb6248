//! The texts of the commands on claims: `certify`, which writes the claim of the walk of two versions, and `check`, which says of
//! any claim whether it is closed.
//!
//! What is promised stands in the contracts of [`certified_text`] (`specs/Certified`) and [`checked_text`] (`specs/Checked`): each
//! text exactly, and each refusal for its cause. What a closed claim is good for is part of the latter.
#![tactic(auto)]

mod certify;
mod check;
mod told;

pub use certify::certified_text;
pub use check::{Checked, checked_text};
