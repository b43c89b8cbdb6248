//! What a walk answers.
use dual_walk::Fact;
use edge_trace::EdgeRow;

/// The reached pairs and the dangerous edges of two programs.
#[derive(Drop)]
pub struct WalkResult {
    /// Each reached pair once, with its reason.
    pub facts: Vec<Fact>,
    /// The numbers of the dangerous edges, of the old graph's.
    pub danger: EdgeRow,
}
