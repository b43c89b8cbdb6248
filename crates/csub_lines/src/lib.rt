//! The second pass over initialisers and declarations in blocks, and over the expressions of statements.
//!
//! What is promised, in terms of `csub_resolution/specs`: [`lower_declaration`] gives the parts of a declaration in a block, whose
//! objects it declares and appends, as `declare_parts`, `past_declare` and `vars_locals` say; and [`part`] has a function for each
//! part of a statement, which is what the definition of its name says. All take time in proportion to what they look at, save for
//! a hash of each name, and fail for want of memory, or a full count, alone.
#![tactic(auto)]

mod init;
pub mod local;
pub mod part;

pub use local::lower_declaration;
