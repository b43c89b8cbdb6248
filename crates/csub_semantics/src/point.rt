//! Points of a function.

/// A point of a function.
#[derive(Drop)]
pub enum Point {
    /// Where the function begins.
    Entry,
    /// Where the function ends.
    Exit,
    /// A stage of a statement's part.
    At(PointPath),
}

/// A place in a function's body.
#[derive(Drop)]
pub struct PointPath {
    /// The statement: a step for each level, from the body down. In a list a step is the line's place from 0; in an
    /// `if` the first statement is 0 and the one behind `else` 1.
    pub path: Vec<u32>,
    /// The part of the statement, from 0.
    pub part: u32,
    /// The stage of the part, from 0: its calls in order, and last its own point.
    pub stage: u32,
}
