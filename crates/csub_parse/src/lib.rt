//! The reader of items and translation units, by descent over tokens (C11 6.7.2 and 6.9).
//!
//! What is promised stands in the contract of [`parse`]: the unit that it answers is spelled by the tokens and is no deeper than 256,
//! there is no other such unit, and a refusal comes only where no such unit goes on (`specs/Syntax.antt`). The other functions are
//! held to the descent as a function on lists of tokens (`specs/UnitDescent.antt`, over that of `csub_stmt`), and the proofs tie that
//! to the grammar. No crate stands on the proofs of this one. Its tests stand with those of the whole reader, in `reader_bench`.
#![tactic(auto)]

mod error;
mod item;
mod unit;

pub use error::ParseError;
pub use unit::parse;
