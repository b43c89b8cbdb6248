//! Tests of the types of objects: cells, members, limits and equality, with the values that C gives them. They stand above
//! what they test, since a crate's tests are proved together with the whole crate.
#![tactic(auto)]

#[cfg(test)]
mod build;
#[cfg(test)]
mod counts;
#[cfg(test)]
mod members;
