//! Tests and the files that hold them.
//!
//! A suite is a text: the line `dejavu suite 1`, then at most 8,192 lines `test NAME BUDGET INPUT`, at
//! most 16,777,216 bytes in all. `read_suite` gives the tests of exactly the texts that `write_suite`
//! writes, and names the first fault of every other: its contract says which, by the rules S1 to S7 of
//! `specs/Rules.antt`. So what `write_suite` writes is read back as the same tests. `copy_test` gives an
//! equal test, and `is_test_name` is the test for rule S4. That workers may share tests and hand them on is
//! shown in `proofs/Threads`.
#![tactic(auto)]

mod error;
mod line;
mod name;
mod reader;
mod repeat;
mod test;
mod writer;

pub use error::SuiteError;
pub use name::is_test_name;
pub use reader::read_suite;
pub use test::{Test, copy_test};
pub use writer::write_suite;
