//! What a walk asks of both graphs.
ghost use Rattle.std.specs.Prelude.{◌≡◌, ◌<◌, ◌≤◌, ◌+◌, ◌^◌, ◌↔◌, IfSome, IsTrue, MatchOption};
ghost use Rattle.csub_objects.specs.Types.{Name};
ghost use Rattle.csub_semantics.specs.Points.{PointTree, exit, exit_tree, point_tree};
ghost use Rattle.csub_semantics.specs.Syntax.{ProgramTree};
ghost use Rattle.csub_semantics.specs.Flows.{flow_of};
ghost use Rattle.csub_semantics.specs.Books.{Together};
ghost use Rattle.flow_graph.specs.Graph.{IsGraphOf, point_count};
ghost use Rattle.dual_walk.specs.Held.{AreAt};
ghost use Rattle.dual_walk.specs.Callees.{LeadsAlong, AreTogether};
ghost use Rattle.dual_walk.specs.Prepared.{IsPrepared};

use crate::both::{Both, same_label};
use csub_semantics::{ExitLabel, Point};
use edge_label::Steps;
use flow_graph::Graph;
use std::sync::ledger::Ledger;

/// A point of the old graph and one of the new graph.
#[derive(Clone, Copy)]
pub struct Pair {
    /// The old point's number.
    pub old: u32,
    /// The new point's number.
    pub new: u32,
}

/// The successors of two points along a way out, by which the old one leads to the point `to`, where the new one leads on
/// too and the labels there are equal. It asks one question at most.
pub fn successors<L: Ledger>(
    both: &Both<'_>,
    from: Pair,
    to: u32,
    exit: &ExitLabel,
    asked: &mut u64,
    steps: &mut Steps<L>,
) -> Option<Pair>
    requires prepared { IsPrepared both.now }
    requires new { from.new < point_count both.now.new.now }
    requires to { to < point_count both.now.old.now }
    requires leads { LeadsAlong both.now.old.now from.old (exit_tree exit.now) to }
    requires room { asked.old + 1 < 2 ^ 64 }
    ensures together { (P P' : ProgramTree) (f : Name) (p p' : PointTree) → IsGraphOf both.now.old.now P → IsGraphOf both.now.new.now P' →
        AreAt P P' from.old from.new f p p' →
        MatchOption result ((q q' : PointTree) → Together (flow_of P) (flow_of P') f p p' (exit_tree exit.now) q q' → ⊥)
        (AreTogether P P' f p p' (exit_tree exit.now)) }
    ensures old { IfSome result (λ pair. pair.old < point_count both.now.old.now) }
    ensures new { IfSome result (λ pair. pair.new < point_count both.now.new.now) }
    ensures counted { steps.new + asked.old ≡ steps.old + asked.new }
    ensures cost { asked.new ≤ asked.old + 1 }
{
    let Some(other) = both.new.follow(from.new, exit) else {
        return None;
    };
    if same_label(both, to, other, asked, steps) {
        Some(Pair {
            old: to,
            new: other,
        })
    } else {
        None
    }
}

/// Whether both points are exits.
pub fn are_exits(old: &Graph, new: &Graph, pair: Pair) -> bool
    requires old { pair.old < point_count old.now }
    requires new { pair.new < point_count new.now }
    ensures { (P P' : ProgramTree) (f : Name) (p p' : PointTree) → IsGraphOf old.now P → IsGraphOf new.now P' →
        AreAt P P' pair.old pair.new f p p' → IsTrue result ↔ ((p ≡ exit) × (p' ≡ exit)) }
{
    is_exit(old.point_at(pair.old)) && is_exit(new.point_at(pair.new))
}

/// Whether a point is an exit.
fn is_exit(point: &Point) -> bool
    ensures { IsTrue result ↔ (point_tree point.now ≡ exit) }
{
    match point {
        Point::Exit => true,
        _ => false,
    }
}
