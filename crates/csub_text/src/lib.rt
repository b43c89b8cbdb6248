//! The ground of the reader of C and of programs: texts, places in a source, and the operators that trees and programs
//! share.
//!
//! What is promised: a [`Text`] holds exactly the bytes that it was made of (the contracts of [`Text::new`],
//! [`Text::bytes`] and [`Text::copy`]), and texts are compared byte by byte.
//!
//! Proofs above cite `proofs/LawsThreads`: texts may cross threads.
#![tactic(auto)]

pub mod operator;
pub mod span;
pub mod text;

pub use operator::{BinOp, StepOp, UnaryOp};
pub use span::Span;
pub use text::Text;
