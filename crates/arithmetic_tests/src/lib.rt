//! Tests of the arithmetic of C's integers: expressions with the values that the standard, and this language's choices
//! where it leaves one, give them. They stand above what they test, since a crate's tests are proved together with the
//! whole crate.
#![tactic(auto)]

#[cfg(test)]
mod values;
