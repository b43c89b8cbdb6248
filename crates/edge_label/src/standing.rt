//! Labels where they stand.
use csub_semantics::Label;

/// A label of a program, and the number of the function in which it stands.
#[derive(Clone, Copy)]
pub struct Standing<'a> {
    /// The number of the function.
    pub function: u32,
    /// The label.
    pub label: &'a Label,
}
