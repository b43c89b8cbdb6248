//! What the numbers of a certificate stay below.

/// How many edges and points two programs have.
#[derive(Clone, Copy)]
pub struct Bounds {
    /// The edges of the old program.
    pub edges: u32,
    /// The points of the old program.
    pub old_points: u32,
    /// The points of the new program.
    pub new_points: u32,
}
