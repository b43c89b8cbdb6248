//! The texts of the commands around the runs of tests: `record`, `walk`, `select`, `rerun`, `explain` and `gen`.
//!
//! What is promised stands in the contracts. `record` writes the history of the source and the suite that it is given
//! (`specs/Recorded`), each entry with what the test's run on the source's program gives ([`record_text`]); `walk` shows at which
//! edges two versions part ([`report`]); `select` names the tests of such a history that a changed source may make behave
//! otherwise, and each test that it leaves behaves the same on it (`specs/Select`, [`selection_text`]); `rerun` runs these, and
//! finds a difference exactly where running all tests would (`specs/Rerun`, [`rerun_selected`]); `explain` shows for one test how a
//! walk reaches the edge for which it has to run again (`specs/Explain`, [`explanation`]); `gen` tries the method on a generated
//! pair of sources (`specs/Generated`, [`generated_text`]). `specs/Steps` is for the functions inside, and has the causes.
//!
//! Proofs above cite `proofs/LawsReruns`: what is told of the tests that ran again.
#![tactic(auto)]

mod explain;
mod generate;
mod record;
mod rerun;
mod select;
mod walked;

pub use explain::explanation;
pub use generate::generated_text;
pub use record::record_text;
pub use rerun::rerun_selected;
pub use select::selection_text;
pub use walked::report;
