//! The reader of declarations and of the lines of blocks, by descent over tokens (C11 6.7 and 6.8).
//!
//! What is promised: each reading gives what the descent as a function on lists of tokens gives (`specs/`), and the contracts of the
//! module [`laws`] tie that function to the grammar: what is read is spelled so and is no deeper than allowed, what is spelled so is
//! read, and an answer depends on the tokens taken and the one after them.
//!
//! Proofs above cite `proofs/LawsTakes.antt` (what was taken), `LawsSequences` (lists, by how one piece is read), `LawsLoops` (loops
//! over them), `LawsDeclarations` and `LawsStatements`. The tests stand with those of the whole reader, in `reader_bench`.
#![tactic(auto)]

pub mod base;
pub mod block;
pub mod declaration;
pub mod laws;
mod node;
mod opening;
pub mod parameter;
mod statement;
