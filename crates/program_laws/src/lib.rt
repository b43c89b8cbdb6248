//! Laws of the definitions of `csub_semantics` and of validity: what holds of every valid program, of every act and of every label.
//!
//! Each law is the contract of a function without parameters, whose body does nothing: [`never_lost`] says that a run
//! of a valid program never gets stuck, [`bounds`] what bounds its results, [`flows`] what lockstep asks of a program,
//! [`edges`] that what a run crosses has a number, [`outcomes`] which outcomes a label may have, and [`decided_labels`]
//! that labels can be compared.
//!
//! Proofs above cite the files `proofs/Laws*`: `LawsNodes`, what a point of a valid program may be, by one induction over
//! its statements; `LawsSwitches`, the ways out of a `switch`; `LawsStanding` and `LawsWays`, what follows for a point, its
//! label and its ways out; `LawsFlows` and `LawsOutcomes`, the laws above; `LawsLabels` and `LawsNames`, equality of
//! labels, names, points and ways out; `LawsGlobals`, the globals of labels.
#![tactic(auto)]

ghost use Rattle.std.specs.Prelude.{ℕ, ℤ, Option};
ghost use Rattle.csub_semantics.specs.Labels.{LabelTree, PointLabel};
ghost use Rattle.csub_semantics.specs.Syntax.{ProgramTree};
ghost use Rattle.csub_semantics.specs.Flows.{Flow, flow_of};
ghost use Rattle.csub_semantics.specs.Acts.{Store, act};
ghost use Rattle.csub_validity.specs.Valid.{IsValid};
ghost use Rattle.program_laws.specs.Outcomes.{Fits};
ghost use Rattle.program_laws.specs.Flows.{IsFlow};
ghost use Rattle.program_laws.specs.Lost.{NeverLost, HasResults};
ghost use Rattle.program_laws.specs.Bounds.{RunsAreBounded};
ghost use Rattle.program_laws.specs.Decided.{Decided};
ghost use Rattle.program_laws.specs.Numbered.{EdgesHaveNumbers};

/// A run of a valid program is never lost, so that it has results within every budget of turns.
pub fn never_lost()
    ensures moments { (P : ProgramTree) → IsValid P → NeverLost P }
    ensures results { (P : ProgramTree) → IsValid P → HasResults P }
{}

/// A valid program has what lockstep asks of it.
pub fn flows()
    ensures { (P : ProgramTree) → IsValid P → IsFlow (flow_of P) }
{}

/// The outcome of an act fits its label.
pub fn outcomes()
    ensures { (l : LabelTree) (frames : ℕ) (r : Option ℤ) (s : Store) → Fits l (act l frames r s) }
{}

/// Two labels are equal or not.
pub fn decided_labels()
    ensures { (a b : PointLabel) → Decided a b }
{}

/// The results of a run are bounded: its turns by its budget, its output by what a run may write, and its output and the
/// status with which it exits are bytes.
pub fn bounds()
    ensures { (P : Flow) → RunsAreBounded P }
{}

/// Each way out along which a point leads on is an edge with a number.
pub fn edges()
    ensures { (P : ProgramTree) → EdgesHaveNumbers P }
{}
