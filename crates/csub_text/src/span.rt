//! Places in a source.

/// The bytes of a source from `start` up to but not including `end`, counted from 0.
#[derive(Clone, Copy, Debug, PartialEq, Eq)]
pub struct Span {
    /// The place of the first byte.
    pub start: u32,
    /// One more than the place of the last byte; `start` for an empty span.
    pub end: u32,
}
