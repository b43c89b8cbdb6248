//! What an answer on a source says, as definitions: which sources are accepted, and why others aren't; and the stages of a
//! source up to its unit.
//!
//! `specs/Accepted` says of the bytes of a source when it is accepted with a program (`Accepted`), which refusal it gets
//! (`HasCause`), and that the place which a refusal tells lies in the source or at its end (`TellsWithin`). `specs/Answers` says
//! of a unit what program it has (`IsResolved`), or why it has none (`HasCause`). The types of the refusals are [`SourceError`] and
//! [`ResolveError`]. [`tokens_of`] and [`unit_of`] give the tokens of a source and the unit that they spell, or the refusal.
#![tactic(auto)]

pub mod error;
pub mod stages;

pub use csub_lex::LexKind;
pub use error::{ResolveError, SourceError};
pub use stages::{tokens_of, unit_of};
