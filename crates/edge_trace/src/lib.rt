//! Sets of edge numbers below a bound, kept as rows of bits.
//!
//! Contracts see an [`EdgeRow`] as one truth value a number, so two rows with the same
//! value are the same set below the same bound. What each call does to the set stands in its own
//! contract; `specs/Rows.antt` has the words that the contracts are made of. Proofs above cite
//! `proofs/Laws` and, of a row's bytes and of its numbers in their order, `proofs/LawsOfBytes` and
//! `proofs/LawsOfNumbers`. That workers may share rows and hand them on is shown in `proofs/Threads`.
#![tactic(auto)]

mod row;
mod words;

pub use row::EdgeRow;
