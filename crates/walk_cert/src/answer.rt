//! What is found of a claim.
use cert_text::Pair;

/// Whether a claim is closed, or its first break.
#[derive(Clone, Copy)]
pub enum Verdict {
    /// The claim is closed.
    Closed,
    /// The pair of the points at which both programs begin isn't claimed.
    NoStart,
    /// The points of this pair are of functions with different names, or have different labels.
    Label(Pair),
    /// The entries of what is called at this pair aren't claimed.
    Callee(Pair),
    /// This edge of the pair's old point isn't in the row and leads out of the claim.
    Exit(Pair, u32),
}
