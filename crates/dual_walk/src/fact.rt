//! The facts of a walk.

/// Why a pair is reached: by facts of the same list, counted from 0, that stand before it.
#[derive(Clone, Copy, Debug, PartialEq, Eq)]
pub enum Why {
    /// Both programs begin at the entry of `#start`.
    Start,
    /// From a fact along an old edge, by the edge's number.
    Step(u32, u32),
    /// From a fact at a call into the callee.
    Call(u32),
    /// From a fact at a call, and a fact at the exits of its callee, over the call.
    Over(u32, u32),
}

/// A reached pair: a point of a function in the old program, and a point of the function of that name in the new one.
#[derive(Clone, Copy, Debug, PartialEq, Eq)]
pub struct Fact {
    /// The function's number in the old graph.
    pub function: u32,
    /// The old point's number in the old graph.
    pub old: u32,
    /// The new point's number in the new graph.
    pub new: u32,
    /// Why the pair is reached.
    pub why: Why,
}
