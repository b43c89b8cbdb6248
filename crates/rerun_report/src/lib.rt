//! What is told of a history's tests after the selected ones ran again on a new program.
//!
//! A test differs where its output, its status or its number of turns on the new program is another than its entry tells. What is
//! promised: [`rerun_text`] gives exactly the text that `specs/RerunTexts.antt` says, and how many tests differ, which is none
//! exactly where each test that ran again has the output, the status and the number of turns of its entry (`specs/Reruns.antt`).
//!
//! Proofs above cite `proofs/LawsReruns`.
#![tactic(auto)]

mod line;
mod part;
mod text;

pub use text::{RerunText, rerun_text};
