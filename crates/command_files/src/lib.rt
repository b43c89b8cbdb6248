//! What the commands begin with: the files that they name are read, and for a history of the old source the tests are chosen.
//!
//! What is promised:
//!
//! - [`read_source`], [`read_tests`], [`read_entries`] and [`read_entries_2`] give what the bytes of a file are, or a refusal
//!   with what is told of them (`specs/Causes`); [`read_versions`], [`open_source`] and [`open_versions`] do so for the files
//!   of a command, in their order, an earlier cause hiding a later one (`specs/Files`).
//! - [`choose`] gives the walk of two versions and the choices for a history of the old one, and [`select_tests`] the same by
//!   the bytes of that history. That a test which is left behaves the same on the new version is part of their contracts
//!   (`specs/Choices`).
//!
//! Proofs above cite `proofs/LawsFiles`, from what is fetched to what the files hold, `proofs/LawsChoices`, from the row of a
//! walk to choices, `proofs/LawsEntries`, the limits of entries that runs give, and `proofs/LawsRefusals`, a refusal that `?`
//! passes on.
#![tactic(auto)]

mod choosing;
mod files;
mod opening;
mod runner;
mod versions;
mod walked;

pub use choosing::{Chosen, Selection, choose, select_tests};
pub use files::{
    FILE_AND_ONE, SOURCE_AND_ONE, SUITE_AND_ONE, fetch_file, read_entries, read_entries_2,
    read_source, read_tests,
};
pub use opening::{OpenedSource, OpenedVersions, open_source, open_versions};
pub use runner::Runner;
pub use versions::{Graphs, Versions, build_graphs, read_versions};
pub use walked::walk_of;
