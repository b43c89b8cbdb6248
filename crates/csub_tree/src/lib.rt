//! The trees of sources: what the tokens of a translation unit are grouped into (C11 6.5 to 6.9).
//!
//! What is promised: [`depth`] counts the nodes on the longest path of a unit. Which tokens spell a tree is defined in
//! `specs/`, one case for each production of the grammar.
#![tactic(auto)]

pub mod declaration;
mod deep;
pub mod expression;
pub mod name;
pub mod statement;
pub mod unit;

pub use declaration::{Declarator, Declare, Head, Init, Param};
pub use deep::depth;
pub use expression::{Expr, ExprKind};
pub use name::{Name, TypeName};
pub use statement::{Stmt, StmtKind};
pub use unit::{Constant, Item, Unit};
