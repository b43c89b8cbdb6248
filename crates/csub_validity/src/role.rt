//! What a part is for, and which jumps and case labels may stand where a statement stands.
use csub_types::IntKind;

/// What a part is for.
#[derive(Clone, Copy, Debug, PartialEq, Eq)]
pub enum Role {
    /// A whole expression, or a return.
    Whole,
    /// The test of an `if` or a loop.
    Test,
    /// The expression of a `switch`.
    Switch,
    /// The first or third expression of a `for`, which is evaluated for its effects.
    Effect,
}

/// Which jumps have a target where a statement stands, and which labels of cases may stand there.
#[derive(Clone, Copy, Debug, PartialEq, Eq)]
pub struct Targets {
    /// Whether a `break` has one: in a loop or a `switch` (C11 6.8.6.3p1).
    pub of_break: bool,
    /// Whether a `continue` has one: in a loop (C11 6.8.6.2p1).
    pub of_continue: bool,
    /// The kind of the `switch` among whose lines a `case` or `default` would stand (C11 6.8.1p2); `None` elsewhere.
    pub of_case: Option<IntKind>,
}
