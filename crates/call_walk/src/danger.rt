//! The dangerous edges of a walk.
ghost use Rattle.std.specs.Prelude.{◌≡◌, ◌<◌, ◌↔◌, ℕ, Some, length, Contains, IfOk, IsTrue};
ghost use Rattle.csub_objects.specs.Types.{Name};
ghost use Rattle.csub_semantics.specs.Points.{PointTree, exit_tree};
ghost use Rattle.csub_semantics.specs.Syntax.{ProgramTree};
ghost use Rattle.csub_semantics.specs.Flows.{edge_list, flow_of};
ghost use Rattle.csub_semantics.specs.Numbers.{site, site_at};
ghost use Rattle.csub_semantics.specs.Books.{SameLabel};
ghost use Rattle.csub_validity.specs.Valid.{IsValid};
ghost use Rattle.edge_trace.specs.Rows.{has};
ghost use Rattle.flow_graph.specs.Graph.{IsGraphOf, point_count, edge_count};
ghost use Rattle.dual_walk.specs.Books.{LeavesFrom};
ghost use Rattle.dual_walk.specs.Held.{AreAt};
ghost use Rattle.dual_walk.specs.Prepared.{IsPrepared};
ghost use Rattle.dual_walk.specs.Rest.{facts_of, IsAtRest};
ghost use Rattle.call_walk.specs.Danger.{ComesBack, GoesOn, Stops, IsStopped, IsStoppedBefore, Marks};

use csub_semantics::ExitLabel;
use dual_walk::{Both, Fact, Walk, callee_at};
use edge_trace::EdgeRow;
use flow_graph::{EdgeEnds, Graph};
use std::alloc::{AllocError, Global};

/// Whether a fact is at no call, or the pair of its callee's exits is held.
fn comes_back(both: &Both<'_>, walk: &Walk, from: Fact) -> bool
    requires prepared { IsPrepared both.now }
    requires rests { IsAtRest both.now.old.now both.now.new.now walk.now }
    requires among { Contains (facts_of walk.now) from }
    ensures { (P P' : ProgramTree) (f : Name) (p p' : PointTree) → IsGraphOf both.now.old.now P → IsGraphOf both.now.new.now P' →
        AreAt P P' from.old from.new f p p' → SameLabel (flow_of P) (flow_of P') f p p' →
        IsTrue result ↔ ComesBack P P' (facts_of walk.now) f p }
{
    match callee_at(both, from.old) {
        Some(callee) => walk.has(callee.exit.old, callee.exit.new),
        None => true,
    }
}

/// Whether the new point leads on along a way out, and the pair of the successors is held.
fn goes_on(new: &Graph, walk: &Walk, to: u32, other: u32, exit: &ExitLabel) -> bool
    requires { other < point_count new.now }
    ensures { (P P' : ProgramTree) (f : Name) (p p' q : PointTree) → IsGraphOf new.now P' → IsValid P →
        site_at P' other ≡ Some (site f p') → site_at P to ≡ Some (site f q) → (flow_of P).succ f p (exit_tree exit.now) ≡ Some q →
        IsTrue result ↔ GoesOn P P' (facts_of walk.now) f p p' (exit_tree exit.now) }
{
    match new.follow(other, exit) {
        Some(next) => walk.has(to, next),
        None => false,
    }
}

/// Marks an edge of a fact's old point, if the successors along it aren't held.
fn mark_edge(old: &Graph, new: &Graph, walk: &Walk, from: Fact, edge: u32, danger: &mut EdgeRow)
    requires rests { IsAtRest old.now new.now walk.now }
    requires among { Contains (facts_of walk.now) from }
    requires edge { edge < edge_count old.now }
    requires leaves { (P : ProgramTree) → IsGraphOf old.now P → LeavesFrom P edge from.old }
    requires edges { length danger.old ≡ edge_count old.now }
    ensures edges { length danger.new ≡ edge_count old.now }
    ensures marks { (P P' : ProgramTree) → IsGraphOf old.now P → IsGraphOf new.now P' → Marks danger.old danger.new (λ e. (e ≡ edge) × Stops P P' (facts_of walk.now) from e) }
{
    let EdgeEnds { from: _, exit, to } = old.edge_at(edge);
    if goes_on(new, walk, to, from.new, exit) {
        return;
    }
    danger.set(edge);
}

/// Marks the edges of a fact's old point along which the successors aren't held.
fn mark_edges(old: &Graph, new: &Graph, walk: &Walk, from: Fact, danger: &mut EdgeRow)
    requires rests { IsAtRest old.now new.now walk.now }
    requires among { Contains (facts_of walk.now) from }
    requires edges { length danger.old ≡ edge_count old.now }
    ensures edges { length danger.new ≡ edge_count old.now }
    ensures marks { (P P' : ProgramTree) → IsGraphOf old.now P → IsGraphOf new.now P' → Marks danger.old danger.new (Stops P P' (facts_of walk.now) from) }
{
    for edge in old.edges_of(from.old) {
        mark_edge(old, new, walk, from, edge, danger);
    }
}

/// Marks the edges at which a fact stops; none at a call whose callee doesn't come back.
fn mark(both: &Both<'_>, walk: &Walk, from: Fact, danger: &mut EdgeRow)
    requires prepared { IsPrepared both.now }
    requires rests { IsAtRest both.now.old.now both.now.new.now walk.now }
    requires among { Contains (facts_of walk.now) from }
    requires edges { length danger.old ≡ edge_count both.now.old.now }
    ensures edges { length danger.new ≡ edge_count both.now.old.now }
    ensures marks { (P P' : ProgramTree) → IsGraphOf both.now.old.now P → IsGraphOf both.now.new.now P' → Marks danger.old danger.new (IsStopped P P' (facts_of walk.now) from) }
{
    if comes_back(both, walk, from) {
        mark_edges(both.old, both.new, walk, from, danger);
    }
}

/// The edges at which facts stop. An `Err` is want of memory.
pub fn dangerous(alloc: Global, both: &Both<'_>, walk: &Walk) -> Result<EdgeRow, AllocError>
    requires prepared { IsPrepared both.now }
    requires rests { IsAtRest both.now.old.now both.now.new.now walk.now }
    ensures edges { IfOk result (λ row. (P : ProgramTree) → IsGraphOf both.now.old.now P → length row ≡ length (edge_list P)) }
    ensures marked { IfOk result (λ row. (P P' : ProgramTree) → IsGraphOf both.now.old.now P → IsGraphOf both.now.new.now P' → (e : ℕ) →
        IsTrue (has row e) ↔ IsStoppedBefore P P' (facts_of walk.now) (length (facts_of walk.now)) e) }
{
    let mut danger = EdgeRow::new(alloc, both.old.edges())?;
    for from in walk.pairs() {
        mark(both, walk, *from, &mut danger);
    }
    Ok(danger)
}
