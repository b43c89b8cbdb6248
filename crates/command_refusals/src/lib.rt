//! Why a command isn't done, and the line that says so.
//!
//! A [`Refusal`] is a cause; [`refusal_text`] gives exactly its line (`specs/Refusals`). What is told of a file that can't be used is
//! made of the error of its reader by [`source_cause`], [`suite_cause`], [`history_cause`] and [`certificate_cause`]
//! (`specs/Causes`), which tell nothing of want of memory alone.
#![tactic(auto)]

pub mod certificate;
pub mod history;
pub mod refusal;
pub mod source;
pub mod suite;
mod words;

pub use certificate::{CertificateCause, certificate_cause};
pub use history::{HistoryCause, history_cause};
pub use refusal::{MEMORY_LINE, Product, Refusal, Role, refusal_text};
pub use source::{SourceCause, source_cause};
pub use suite::{SuiteCause, suite_cause};
