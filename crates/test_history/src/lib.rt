//! Histories: what a suite's tests gave on one source, and the text that keeps it.
//!
//! A history holds the SHA-256 digest of a source, the number of edges of its program, and for each
//! test an entry: the test, how its run ended, the number of its turns, its output and the edges that
//! it crossed. `specs/HistoryTexts.antt` says which text that is: version 3 of the format is written and
//! read, and version 2 is only read. `specs/Entries.antt` says when an entry is what a test's run
//! gives. What is promised:
//!
//! - [`write_history`] gives exactly that text, or says how long it would be where it is too long for
//!   the format: its contract has both, and refuses for no other cause than memory.
//! - [`read_history`] gives the one history of which a text is the text, where it is of the source and
//!   the number of edges at hand. It refuses every other text for the first cause in the order of
//!   [`HistoryError`], each exactly where it holds: `specs/Rules.antt` has the rules H1 to H14 of the
//!   lines, and `specs/Causes.antt` the causes. So what `write_history` writes is read back as it was.
//! - [`read_history_2`] is the same for version 2, by the same rules: only H1 and H12 differ.
//! - [`digest_of`] is SHA-256 (FIPS 180-4).
//! - A [`History`] has in every entry a row of its own number of edges: `History::new` asks for it and
//!   `History::entries` tells it.
//!
//! That workers may share entries and histories and hand them on is shown in `proofs/Threads`.
#![tactic(auto)]

mod bits;
mod crossed;
mod digest;
mod entry;
mod error;
mod fault;
mod history;
mod length;
mod lines;
mod numbers;
mod reader;
mod values;
mod version;
mod writer;

pub use digest::digest_of;
pub use entry::Entry;
pub use error::{HistoryError, HistoryTextError};
pub use history::History;
pub use lines::push_status_words;
pub use reader::{read_history, read_history_2};
pub use writer::write_history;
