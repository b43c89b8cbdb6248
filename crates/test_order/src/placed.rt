//! A place of the order.
ghost use Rattle.std.specs.Prelude.{MatchBool};
ghost use Rattle.test_order.specs.Orders.{IsNotBehind};

/// A place of the order: which test has it, and what that test adds.
#[derive(Clone, Copy, Debug, PartialEq, Eq)]
pub struct Placed {
    /// The test's place in the history, from 0.
    pub at: u32,
    /// The test's gain: how many edges it crosses that no test placed before it crosses.
    pub gain: u32,
}

impl Placed {
    /// Whether the other goes first: its gain is greater, or the gains are equal and it stands earlier in the history.
    pub(crate) fn is_behind(self, other: Placed) -> bool
        ensures { MatchBool result (IsNotBehind other self.gain self.at) (IsNotBehind self other.gain other.at) }
    {
        other.gain > self.gain || (other.gain == self.gain && other.at < self.at)
    }
}
