//! The program that is judged, and where an expression stands in it.
use csub_semantics::{Function, GlobalVar, RPart};

/// The definitions of a program that is judged.
#[derive(Clone, Copy)]
pub struct Definitions<'a> {
    /// The functions, `#start` first.
    pub functions: &'a [Function],
    /// The objects of file scope.
    pub globals: &'a [GlobalVar],
}

/// Where an expression stands.
#[derive(Clone, Copy)]
pub struct Site<'a> {
    /// Its program.
    pub program: Definitions<'a>,
    /// Its function.
    pub function: &'a Function,
    /// Its part.
    pub part: &'a RPart,
    /// The number of its stage, from 1.
    pub number: usize,
}
