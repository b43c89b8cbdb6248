//! Valid programs. Which programs are valid says `specs/Valid` of `csub_validity`, by the definitions of
//! `csub_semantics`; both are given on from here, with the types of the latter.
//!
//! What is promised of the code: a [`Program`] is valid when it is made, and stays so (the contracts of its methods).
//! Functions and objects of file scope that are not known to be valid are judged in `csub_decisions`. Proofs above cite
//! `proofs/LawsThreads`: a program may cross threads.
#![tactic(auto)]

pub mod program;

pub use csub_objects::cells;
pub use csub_semantics::{
    Answer, BinOp, CType, CallLabel, Element, EndRule, ExitLabel, Function, GlobalVar, IntKind,
    Label, LocalVar, Member, Members, Owner, Piece, Place, Point, PointPath, RArg, RCall, RExpr,
    RInit, RPart, RStmt, Span, Status, StepOp, Text, Trap, UnaryOp, copy_call, copy_global,
    copy_label,
};
pub use program::Program;
