//! Laws of two valid programs, the old one P and the new one P'. Each is the contract of a function without parameters.

ghost use Rattle.csub_semantics.specs.Syntax.{ProgramTree};
ghost use Rattle.csub_validity.specs.Valid.{IsValid};
ghost use Rattle.edge_images.specs.Crossings.{RunsCarryOver};

use call_walk::laws::lockstep;

/// Where an old run within a budget crosses no dangerous edge, and each edge that it crosses has one image alone, the new
/// run within that budget has the same output, status and number of turns, and it crosses an edge exactly where this is the
/// image of an edge that the old run crosses.
pub fn runs_carry_over()
    ensures { (P P' : ProgramTree) → IsValid P → IsValid P' → RunsCarryOver P P' }
{
    lockstep();
}
