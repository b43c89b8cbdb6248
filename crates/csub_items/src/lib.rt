//! The second pass over the functions of a source, as they are defined.
//!
//! What is promised, in terms of `csub_resolution/specs`: [`functions`] gives the functions of a source that breaks no rule with
//! `#start` before them, as `program_of` says. It takes time in proportion to the source and the types that it compares, save for
//! a hash of each name, and fails for want of memory, or a full count, alone.
#![tactic(auto)]

mod function;

pub use function::functions;
