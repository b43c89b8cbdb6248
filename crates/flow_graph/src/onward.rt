//! Where control goes from a statement.
ghost use Rattle.std.specs.Prelude.{◌≡◌};
ghost use Rattle.csub_semantics.specs.Successors.{looping as looping', switching as switching'};
ghost use Rattle.flow_graph.specs.Numbers.{around, all_to as all_to'};

/// Where control goes from a statement: past its end, at a return, and in a loop or `switch` at a `break` and at a
/// `continue`.
#[derive(Clone, Copy, Debug, PartialEq, Eq)]
pub struct Onward {
    /// The point past the end.
    pub leave: u32,
    /// The function's exit.
    pub returned: u32,
    /// The point past the loop or `switch`.
    pub broken: u32,
    /// What comes next in the loop.
    pub continued: u32,
}

/// All control goes to one point.
pub fn all_to(point: u32) -> Onward
    ensures { around result ≡ all_to' point }
{
    Onward {
        leave: point,
        returned: point,
        broken: point,
        continued: point,
    }
}

/// What stands round the body of a loop, in which `next` comes next.
pub fn looping(onward: Onward, next: u32) -> Onward
    ensures { around result ≡ looping' next (around onward) }
{
    Onward {
        leave: next,
        returned: onward.returned,
        broken: onward.leave,
        continued: next,
    }
}

/// What stands round the lines of a `switch`.
pub fn switching(onward: Onward) -> Onward
    ensures { around result ≡ switching' (around onward) }
{
    let past = onward.leave;
    Onward {
        broken: past,
        ..onward
    }
}
