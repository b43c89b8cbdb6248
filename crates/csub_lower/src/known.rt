//! What is known where an expression stands.
use crate::definitions::Definitions;
use csub_scopes::Scope;

/// What is known where an expression stands.
#[derive(Clone, Copy)]
pub struct Known<'t> {
    /// What is declared there.
    pub scope: &'t Scope,
    /// The functions that the source defines.
    pub definitions: &'t Definitions,
}
