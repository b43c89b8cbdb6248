//! Declared names and tags of C sources: what they mean, and their look-up in constant time.
//!
//! What is promised: [`Names`] is the list of the declarations of a place, the innermost and the latest first, and
//! [`Names::find`] gives the one that the definition of scopes in `specs/Scopes` gives (C11 6.2.1p4);
//! [`Names::declare`] puts one in front, and [`Names::close`] takes those of a scope away. [`Tags`] is the list of the
//! declared tags, which have a name space of their own (C11 6.2.3), with [`Tags::find`] and [`Tags::declare`]. A
//! [`Scope`] is both. [`Counts`] is a list of names in which a name may stand more than once, with [`Counts::count`] for how
//! often it does. Each look-up is by a hash, so its time doesn't grow with the number of declarations. An `Err` of
//! [`Names::declare`], [`Tags::declare`] or [`Counts::add`] is want of memory, or a full count; no other call has one.
#![tactic(auto)]

pub mod counts;
pub mod meaning;
pub mod names;
mod places;
pub mod scope;
pub mod tags;

pub use counts::Counts;
pub use meaning::{Declared, Meaning, Signature, Tagged};
pub use names::Names;
pub use scope::Scope;
pub use tags::Tags;
