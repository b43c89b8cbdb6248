//! Laws of accepted sources: what the laws of valid programs say of every source that is accepted, whether or not it was read.
//!
//! Each law is the contract of a function without parameters. [`valid_program`] says that every accepted source has a program, and
//! that it is valid; by it the others speak of accepted sources alone, where the laws of the crates below ask for valid programs:
//! [`never_lost`] (`program_laws`), [`lockstep`] (`call_walk`), [`closed_claim`] (`walk_cert`), [`runs_carry_over`] (`edge_images`)
//! and [`carried_is_recorded`] (`carry_history`). When a source is accepted stands in `specs/Accepted` of `csub_answers`.
#![tactic(auto)]

ghost use Rattle.std.specs.Prelude.{◌≡◌, ℕ, List, Bool, None};
ghost use Rattle.csub_tree.specs.Units.{Source};
ghost use Rattle.csub_rules.specs.Units.{unit_fault};
ghost use Rattle.csub_limits.specs.Limits.{limit_passed};
ghost use Rattle.csub_semantics.specs.Syntax.{ProgramTree};
ghost use Rattle.csub_semantics.specs.Flows.{flow_of};
ghost use Rattle.csub_semantics.specs.Books.{Reached, Dangerous};
ghost use Rattle.csub_validity.specs.Valid.{IsValid};
ghost use Rattle.csub_answers.specs.Accepted.{Reads, Accepted};
ghost use Rattle.program_laws.specs.Lost.{NeverLost, HasResults};
ghost use Rattle.program_laws.specs.Bounds.{RunsAreBounded};
ghost use Rattle.call_walk.specs.Lockstep.{Lockstep, SameRuns};
ghost use Rattle.cert_text.specs.declared.pair.Pair.{Pair};
ghost use Rattle.walk_cert.specs.Claims.{IsClaimed, IsInRow, IsClosedClaim};
ghost use Rattle.edge_images.specs.Crossings.{RunsCarryOver};
ghost use Rattle.carry_history.specs.Recorded.{CarriesRecords};
ghost use Rattle.source_laws.specs.Programs.{HasProgram};

/// A source of at most 1,048,576 bytes, whose tokens spell a unit no deeper than 256 that breaks no rule and passes no limit, has a
/// program; and each program of a source is valid.
pub fn valid_program()
    ensures has { (bytes : List ℕ) (u : Source) → Reads bytes u → unit_fault u ≡ None → limit_passed u ≡ None → HasProgram bytes }
    ensures valid { (bytes : List ℕ) (P : ProgramTree) → Accepted bytes P → IsValid P }
{}

/// A run of an accepted source's program is never lost, and within every budget of turns it has results, which are bounded.
pub fn never_lost()
    ensures moments { (bytes : List ℕ) (P : ProgramTree) → Accepted bytes P → NeverLost P }
    ensures results { (bytes : List ℕ) (P : ProgramTree) → Accepted bytes P → HasResults P }
    ensures bounds { (bytes : List ℕ) (P : ProgramTree) → Accepted bytes P → RunsAreBounded (flow_of P) }
{
    valid_program();
    program_laws::never_lost();
    program_laws::bounds();
}

/// As long as the run of an old accepted source's program crosses no dangerous edge, that of a new one's goes in lockstep with it;
/// and a whole run that crosses none has the same output, status and number of turns on the new program.
pub fn lockstep()
    ensures steps { (old new : List ℕ) (P P' : ProgramTree) → Accepted old P → Accepted new P' →
        Lockstep (flow_of P) (flow_of P') (Reached (flow_of P) (flow_of P')) (Dangerous (flow_of P) (flow_of P')) }
    ensures runs { (old new : List ℕ) (P P' : ProgramTree) → Accepted old P → Accepted new P' →
        SameRuns (flow_of P) (flow_of P') (Reached (flow_of P) (flow_of P')) (Dangerous (flow_of P) (flow_of P')) }
{
    valid_program();
    call_walk::laws::lockstep();
}

/// Where a claim on the programs of two accepted sources is closed, whoever made it, a run of the old one that crosses no edge of
/// its row has the same output, status and number of turns on the new one.
pub fn closed_claim()
    ensures { (old new : List ℕ) (P P' : ProgramTree) → Accepted old P → Accepted new P' → (row : List Bool) (pairs : List Pair) →
        IsClosedClaim P P' row pairs → SameRuns (flow_of P) (flow_of P') (IsClaimed P P' pairs) (IsInRow P row) }
{
    valid_program();
    walk_cert::laws::closed_claim();
}

/// Where a run of an old accepted source's program crosses no dangerous edge, and each edge that it crosses has one image alone, the
/// run of a new one's has the same output, status and number of turns, and crosses just the images.
pub fn runs_carry_over()
    ensures { (old new : List ℕ) (P P' : ProgramTree) → Accepted old P → Accepted new P' → RunsCarryOver P P' }
{
    valid_program();
    edge_images::laws::runs_carry_over();
}

/// Where a history was recorded on an old accepted source's program, and the choices and the images are those of a walk, the carried
/// history is what recording its tests on the program of a new one gives, entry by entry.
pub fn carried_is_recorded()
    ensures { (old new : List ℕ) (P P' : ProgramTree) → Accepted old P → Accepted new P' → CarriesRecords P P' }
{
    valid_program();
    carry_history::laws::carried_is_recorded();
}
