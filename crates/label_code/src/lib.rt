//! The codes of labels, and the names in them.
//!
//! The code of a label without its types is a list of numbers, which [`push_label`] appends; that of a global has a number in
//! the place of its type ([`push_global`]). `specs/Bare` has labels without types, `Codes` the codes, `Readers` reads them
//! back, and `ReadBack` proves that no two labels have one code. [`uses_of`] gives the names in a label with the types beside
//! them, in the words of `specs/Uses`, and [`global_names`] those of objects of file scope, each once.
#![tactic(auto)]

pub mod code;
pub mod names;
pub mod uses;

pub use code::{kind_number, push_global, push_label, push_name, push_numbered};
pub use names::{NameSet, global_names};
pub use uses::{TypeUse, uses_of};
