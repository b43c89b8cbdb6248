//! The reader of expressions and initialisers, by descent over tokens (C11 6.5 and 6.7.9).
//!
//! What is promised: each reading gives what the descent as a function on lists of tokens gives (`specs/`), and the contracts of the
//! module [`laws`] tie that function to the grammar: what is read is spelled so and is no deeper than allowed, what is spelled so is
//! read, and an answer depends on the tokens taken and the one after them.
//!
//! Proofs above cite `proofs/LawsTokens.antt` (lists of tokens and their places), `LawsAnswers` (steps that were answered), `LawsLocal`
//! (readings that depend on what they took), `LawsLists` (lists with commas) and `LawsExpressions` (expressions and initialisers).
#![tactic(auto)]

pub mod expression;
pub mod initialiser;
pub mod laws;
pub mod look;
mod node;
mod operator;
pub mod stop;
