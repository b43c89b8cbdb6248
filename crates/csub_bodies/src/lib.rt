//! The first pass over declarations in blocks, statements and bodies of functions: the first rule that they break.
//!
//! What is promised: [`check_statement`] gives the earliest fault of a statement and what is declared behind it, exactly as
//! `stmt_fault` and `past` of the definitions of rules (`csub_rules`) say; [`check_declaration`] the same of a declaration in
//! a block, and [`check_body`] of the lines of a function's body, as `body_fault` says. [`declare`] declares an object of a
//! function, as a parameter is one; [`is_declared`] and [`stands_in`] tell whether a name is there already. Each takes time in
//! proportion to what it looks at, save for a hash of each name and each case value. An `Err` of [`check_statement`],
//! [`check_declaration`], [`check_body`] or [`declare`] is want of memory, or a full count, and that of [`enter`] a full count
//! alone; [`leave`], [`is_declared`], [`stands_in`] and [`switch_kind`] have none.
//!
//! Proofs above cite `proofs/LawsGrows`: declarations only come on top, and behind a block stands what stood before it; and
//! `proofs/LawsTrees`: what the statements of the code are as trees.
#![tactic(auto)]

pub mod body;
pub mod here;
mod labels;
pub mod local;
pub mod statement;
pub mod surroundings;
mod switch;

pub use body::check_body;
pub use here::{Here, declare, enter, is_declared, leave};
pub use labels::stands_in;
pub use local::check_declaration;
pub use statement::check_statement;
pub use surroundings::Surroundings;
pub use switch::switch_kind;
