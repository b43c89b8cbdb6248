//! Laws of two valid programs, the old one P and the new one P'. Each is the contract of a function without parameters
//! whose body does nothing.

ghost use Rattle.std.specs.Prelude.{List};
ghost use Rattle.csub_semantics.specs.Syntax.{ProgramTree};
ghost use Rattle.csub_semantics.specs.Flows.{Edge, flow_of};
ghost use Rattle.csub_validity.specs.Valid.{IsValid};
ghost use Rattle.csub_semantics.specs.Books.{Fact, Reached, Dangerous, Closed};
ghost use Rattle.call_walk.specs.Locality.{ActsAreLocal};
ghost use Rattle.call_walk.specs.Lockstep.{Lockstep, SameRuns, claims, among};

/// An act reads and writes nothing but cells of frames, cells of the globals that its label names, and what references
/// in these refer to. So two acts of one label on stores that agree there come out the same, and keep that they agree.
pub fn locality()
    ensures { ActsAreLocal }
{}

/// The reached pairs and the dangerous edges are a closed claim: the start pair is reached, the points of a reached
/// pair have equal labels, and each of its edges that isn't dangerous leads on to a reached pair.
pub fn reached_is_closed()
    ensures { (P P' : ProgramTree) → IsValid P → IsValid P' →
        Closed (flow_of P) (flow_of P') (Reached (flow_of P) (flow_of P')) (Dangerous (flow_of P) (flow_of P')) }
{}

/// As long as the old run crosses no dangerous edge, both runs go in lockstep: after each number of turns they have as
/// many frames, at each height of one function, with one result and at a reached pair of points. Their shared cells, the
/// input left and the output are the same, and the turn that ends the old run ends the new one with the same status and
/// output. So a whole run that crosses no dangerous edge has the same results on the new program. (Every run of a valid
/// program has results: `program_laws::never_lost`.)
pub fn lockstep()
    ensures steps { (P P' : ProgramTree) → IsValid P → IsValid P' →
        Lockstep (flow_of P) (flow_of P') (Reached (flow_of P) (flow_of P')) (Dangerous (flow_of P) (flow_of P')) }
    ensures runs { (P P' : ProgramTree) → IsValid P → IsValid P' →
        SameRuns (flow_of P) (flow_of P') (Reached (flow_of P) (flow_of P')) (Dangerous (flow_of P) (flow_of P')) }
{}

/// The same over any closed claim of facts and edges, whoever made it.
pub fn certificate()
    ensures steps { (P P' : ProgramTree) → IsValid P → IsValid P' → (facts : List Fact) (edges : List Edge) →
        Closed (flow_of P) (flow_of P') (claims facts) (among edges) →
        Lockstep (flow_of P) (flow_of P') (claims facts) (among edges) }
    ensures runs { (P P' : ProgramTree) → IsValid P → IsValid P' → (facts : List Fact) (edges : List Edge) →
        Closed (flow_of P) (flow_of P') (claims facts) (among edges) →
        SameRuns (flow_of P) (flow_of P') (claims facts) (among edges) }
{}
