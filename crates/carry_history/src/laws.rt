//! A law of two valid programs, the old one P and the new one P'. It is the contract of a function without parameters.

ghost use Rattle.csub_semantics.specs.Syntax.{ProgramTree};
ghost use Rattle.csub_validity.specs.Valid.{IsValid};
ghost use Rattle.carry_history.specs.Recorded.{CarriesRecords};

use edge_images::laws::runs_carry_over;

/// Where a history was recorded on P, and the choices and the images are those of a walk of P and P', the carried history is
/// what recording its tests on P' gives, entry by entry.
pub fn carried_is_recorded()
    ensures { (P P' : ProgramTree) → IsValid P → IsValid P' → CarriesRecords P P' }
{
    runs_carry_over();
}
