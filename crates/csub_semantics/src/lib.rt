//! What a resolved program is and does: the definitions that every promise is stated with.
//!
//! Types are those of `csub_objects`. `specs/` says it in this order: objects of file scope, resolved expressions,
//! labels and statements as values (`Types`, `Trees`, `Labels`, `Syntax`), and which globals a label names (`Globals`);
//! points by places in the syntax and where they lead (`Points`, `Successors`, `Flows`); evaluation over any memory, and
//! over named cells (`Memory`, `Evaluation`, `Cells`); initialisers and the act of a label (`Initialising`, `Acts`);
//! turns and runs (`Runs`); numbers of functions, points and edges (`Numbers`); the walk of two programs together
//! (`Books`). Which programs are valid stands in `csub_validity`.
//!
//! What is promised of the code: the copies of [`copy`] are equal to what they copy. Laws for proofs above stand in
//! `proofs/`: `LawsLabels` (labels that call), `LawsLists` and `LawsRows` (what the elements of lists stand for), and
//! `LawsThreads` (functions may cross threads).
#![tactic(auto)]

pub mod copy;
pub mod expression;
pub mod function;
pub mod label;
pub mod point;
pub mod status;
pub mod types;

pub use copy::{copy_call, copy_global, copy_label};
pub use csub_objects::{CType, Element, Member, Members};
pub use csub_text::{BinOp, Span, StepOp, Text, UnaryOp};
pub use csub_types::{IntKind, Trap};
pub use expression::{Owner, Piece, Place, RArg, RExpr};
pub use function::{Function, LocalVar, RCall, RPart, RStmt};
pub use label::{Answer, CallLabel, EndRule, ExitLabel, Label, RInit};
pub use point::{Point, PointPath};
pub use status::Status;
pub use types::GlobalVar;
