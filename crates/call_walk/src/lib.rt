//! The walk of two programs through calls, and what its dangerous edges are good for.
//!
//! What is promised stands in the contracts of the module [`laws`]. As long as a run of the old program crosses no
//! dangerous edge, the run of the new program on the same input goes in lockstep with it, and in the end has the same
//! status, output and number of turns ([`laws::lockstep`]). The same holds over every closed claim, whoever made it
//! ([`laws::certificate`]), and the reached pairs with the dangerous edges are one ([`laws::reached_is_closed`]). Both
//! rest on acts being local ([`laws::locality`]).
//!
//! [`walk`] finds the reached pairs and the dangerous edges. Its steps are those of a `dual_walk::Walk`; what is done here
//! is to enter the callees and to mark the edges.
//!
//! Proofs above cite `proofs/LawsCalls`, the only way out of a call is the next point, and `proofs/LawsWalks`, the facts of
//! a walk hold just the reached pairs.
#![tactic(auto)]

pub mod answer;
mod danger;
pub mod laws;
mod walking;

pub use answer::WalkResult;
pub use dual_walk::{Fact, Why};
pub use walking::walk;
