//! Whether a test has to run again.
ghost use Rattle.std.specs.Prelude.{◌≡◌};
ghost use Rattle.test_select.specs.Selection.{is_selected};

/// Whether a test has to run again, and why.
#[derive(Clone, Copy, Debug, PartialEq, Eq)]
pub enum Choice {
    /// It crossed this dangerous edge, and no dangerous edge of a smaller number.
    Selected(u32),
    /// It crossed no dangerous edge.
    Left,
}

impl Choice {
    /// Whether the test has to run again.
    pub fn is_selected(self) -> bool
        ensures { result ≡ is_selected self }
    {
        matches!(self, Choice::Selected(_))
    }
}
