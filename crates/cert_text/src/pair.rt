//! A pair of points.

/// A point of the old program and one of the new program.
#[derive(Clone, Copy)]
pub struct Pair {
    /// The old point's number.
    pub old: u32,
    /// The new point's number.
    pub new: u32,
}
