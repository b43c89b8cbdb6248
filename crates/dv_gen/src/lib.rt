//! Pairs of programs with tests, made from a seed, as a large and dense load for whoever compares two versions:
//! an old source of C whose functions pass on one number, a new one in which one function adds one more, and
//! tests of one byte each.
//!
//! `make_pair` promises that: its sources and its tests are exactly those that `specs/Pairs.antt` says of the
//! seed and the size, by the draws of `specs/Draws.antt`, and the tests can be written as a suite.
#![tactic(auto)]

mod draws;
mod functions;
mod pair;
mod source;
mod suite;
#[cfg(test)]
mod worked;

pub use pair::{Made, make_pair};
