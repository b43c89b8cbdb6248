//! The world outside the tool: shelves that files are read from, and sinks that text is written to. The gates of
//! `test_gate` are given on from here.
//!
//! What is promised, and where:
//! - [`Shelf::fetch`]: the answer is the beginning of the file with that name, never longer than was asked
//!   for, and `Failed` comes only where the shelf's count of faults of that name rose. What was asked and
//!   answered is added to the shelf's log, whether or not its files are told; where they are, the log is of
//!   them, and the counts of faults are those of the log.
//! - [`Sink::put`]: a beginning of the piece was appended, and `SinkFailed` comes only where the sink's
//!   count of faults rose, with nothing of the piece taken. What was taken is kept whether or not the written
//!   bytes are told; where they are, they are those.
//! - [`write_whole`]: `Ok` says that the whole text was taken, `SinkFailed` that a beginning of it was
//!   and that the count rose. It takes no memory.
//! - The shelves and sinks in memory tell their contents, and the contracts of their `fetch` and `put` say
//!   exactly when a call fails and how much it takes.
//! - `DiskShelf` and `StdSink` tell nothing of contents: what the system does is trusted. They keep their logs
//!   as all others do.
//!
//! A log takes no byte, and clauses alone read it. What a clause says of a log it says of code that is generic
//! over its shelf or sink, which can't make another.
//!
//! Contents that are told, logs, and what a count that rose is, stand in `specs/Outside.antt`.
#![tactic(auto)]

mod disk;
mod held;
mod log;
mod shelf;
mod shelves;
mod sink;
mod sinks;

pub use disk::{DiskShelf, StdSink};
pub use held::names_differ;
pub use log::{ByteLog, FetchLog};
pub use shelf::{FetchError, Shelf};
pub use shelves::{FailingShelf, MemoryShelf};
pub use sink::{Sink, SinkFailed, write_whole};
pub use sinks::{FailingSink, MemorySink};
pub use test_gate::{Gate, OpenGate};
