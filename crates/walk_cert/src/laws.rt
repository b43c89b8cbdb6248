//! Laws of two valid programs, the old one P and the new one P'. Each is the contract of a function without parameters.
ghost use Rattle.std.specs.Prelude.{List, Bool};
ghost use Rattle.csub_semantics.specs.Syntax.{ProgramTree};
ghost use Rattle.csub_semantics.specs.Flows.{flow_of};
ghost use Rattle.csub_validity.specs.Valid.{IsValid};
ghost use Rattle.call_walk.specs.Lockstep.{SameRuns};
ghost use Rattle.cert_text.specs.declared.pair.Pair.{Pair};
ghost use Rattle.walk_cert.specs.Claims.{IsClaimed, IsInRow, IsClosedClaim};

/// Where a claim is closed, whoever made it, a run of the old program that crosses no edge of its row has the same status,
/// output and number of turns on the new program.
pub fn closed_claim()
    ensures { (P P' : ProgramTree) → IsValid P → IsValid P' → (row : List Bool) (pairs : List Pair) →
        IsClosedClaim P P' row pairs → SameRuns (flow_of P) (flow_of P') (IsClaimed P P' pairs) (IsInRow P row) }
{
    call_walk::laws::certificate();
}
