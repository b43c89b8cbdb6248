//! The arithmetic of C's integers: exact in whole numbers, and then wrapped, trapped or compared.
//!
//! What is promised, in the contract of the function of that name: [`binary`] and [`unary`] give exactly what
//! `specs/Arithmetic` says, which follows C11 6.5.3.3 and 6.5.5 to 6.5.12, and a result is a number of its kind;
//! [`convert`] gives the one number of a kind with the same low bits (6.3.1.3); [`promote`] and [`common`] are the
//! integer promotions (6.3.1.1) and the usual arithmetic conversions (6.3.1.8), by which [`operation_kind`] goes. No
//! function takes memory.
//!
//! What C leaves undefined traps. What C leaves to the implementation is chosen so: `char` has a sign and 8 bits, `int`
//! and `unsigned int` have 32, and bits are those of the two's complement (6.2.5, 6.2.6.2 and 6.5p4); a conversion keeps
//! the low bits (6.3.1.3p3); `>>` of a negative number rounds down, so it keeps the sign (6.5.7p5).
#![tactic(auto)]

pub mod arithmetic;
mod division;
pub mod kind;
mod settle;
mod shift;
pub mod trap;

pub use arithmetic::{binary, binary_kind, operation_kind, truth, unary, unary_kind};
pub use kind::{IntKind, common, convert, promote};
pub use trap::Trap;
