//! The first pass over expressions: what each is, and the first rule that it breaks.
//!
//! What is promised: [`check`] gives the sort of an expression and the earliest fault in it, exactly as `sort_of` and
//! `fault` of the definitions of rules (`csub_rules`) say; [`check_use`] gives the earliest fault of an expression where
//! it stands by itself, and [`check_enum_constant`] that of an enum constant. [`constant`] gives the value of a
//! constant expression (C11 6.6), and none for an expression that is none or traps; [`check_constant`] gives value and
//! fault, and [`enum_value`] the value of an enum constant. Each of them takes time in proportion to the expression and the
//! types that it compares, no memory, and fails for nothing.
#![tactic(auto)]

mod arguments;
mod callee;
pub mod checked;
pub mod constants;
pub mod expression;
mod format;
mod node;
pub mod sort;
pub mod standing;
pub mod uses;

pub use checked::Checked;
pub use constants::constant;
pub use expression::check;
pub use sort::Sort;
pub use standing::Standing;
pub use uses::{Use, check_constant, check_enum_constant, check_use, enum_value};
