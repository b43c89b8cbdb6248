//! The ways out of a claim.
ghost use Rattle.std.specs.Prelude.{◌≡◌, ◌<◌, ◌↔◌, Some, length, IsTrue, MatchBool, MatchOption};
ghost use Rattle.csub_objects.specs.Types.{Name};
ghost use Rattle.csub_semantics.specs.Points.{PointTree, exit_tree};
ghost use Rattle.csub_semantics.specs.Syntax.{ProgramTree};
ghost use Rattle.csub_semantics.specs.Numbers.{site, site_at};
ghost use Rattle.csub_semantics.specs.Flows.{flow_of};
ghost use Rattle.csub_semantics.specs.Books.{GoesOn};
ghost use Rattle.csub_validity.specs.Valid.{IsValid};
ghost use Rattle.flow_graph.specs.Graph.{IsGraphOf, point_count, edge_count};
ghost use Rattle.dual_walk.specs.Books.{LeavesFrom};
ghost use Rattle.cert_text.specs.Certificates.{Rise};
ghost use Rattle.walk_cert.specs.Claims.{AreAlike, IsClaimed};
ghost use Rattle.walk_cert.specs.Verdicts.{LeadsOut, StaysAt, IsFirstWayOut, StaysEverywhere};

use crate::search::has_pair;
use cert_text::Pair;
use csub_semantics::ExitLabel;
use edge_trace::EdgeRow;
use flow_graph::{EdgeEnds, Graph};

/// Whether the new point leads on along a way out, and the pair of the successors is claimed.
fn goes_on(new: &Graph, pairs: &[Pair], to: u32, other: u32, exit: &ExitLabel) -> bool
    requires other { other < point_count new.now }
    requires rise { Rise pairs.now }
    ensures { (P P' : ProgramTree) (f : Name) (p' q : PointTree) → IsGraphOf new.now P' → IsValid P →
        site_at P' other ≡ Some (site f p') → site_at P to ≡ Some (site f q) →
        IsTrue result ↔ GoesOn (flow_of P') (IsClaimed P P' pairs.now) f p' (exit_tree exit.now) q }
{
    match new.follow(other, exit) {
        Some(next) => has_pair(pairs, to, next),
        None => false,
    }
}

/// Whether an edge of a pair's old point isn't in the row and leads out of the claim.
fn leads_out(
    old: &Graph,
    new: &Graph,
    danger: &EdgeRow,
    pairs: &[Pair],
    pair: Pair,
    edge: u32,
) -> bool
    requires new { pair.new < point_count new.now }
    requires edge { edge < edge_count old.now }
    requires row { length danger.now ≡ edge_count old.now }
    requires rise { Rise pairs.now }
    requires leaves { (P : ProgramTree) → IsGraphOf old.now P → LeavesFrom P edge pair.old }
    requires alike { (P P' : ProgramTree) → IsGraphOf old.now P → IsGraphOf new.now P' → AreAlike P P' pair }
    ensures { (P P' : ProgramTree) → IsGraphOf old.now P → IsGraphOf new.now P' →
        MatchBool result (LeadsOut P P' danger.now pairs.now pair edge) (StaysAt P P' danger.now pairs.now pair edge) }
{
    if danger.has(edge) {
        return false;
    }
    let EdgeEnds { from: _, exit, to } = old.edge_at(edge);
    !goes_on(new, pairs, to, pair.new, exit)
}

/// The first edge of a pair's old point that isn't in the row and leads out of the claim.
pub fn first_way_out(
    old: &Graph,
    new: &Graph,
    danger: &EdgeRow,
    pairs: &[Pair],
    pair: Pair,
) -> Option<u32>
    requires old { pair.old < point_count old.now }
    requires new { pair.new < point_count new.now }
    requires row { length danger.now ≡ edge_count old.now }
    requires rise { Rise pairs.now }
    requires alike { (P P' : ProgramTree) → IsGraphOf old.now P → IsGraphOf new.now P' → AreAlike P P' pair }
    ensures { (P P' : ProgramTree) → IsGraphOf old.now P → IsGraphOf new.now P' →
        MatchOption result (StaysEverywhere P P' danger.now pairs.now pair) (IsFirstWayOut P P' danger.now pairs.now pair) }
{
    let edges = old.edges_of(pair.old);
    let mut edge = edges.start;
    while edge < edges.end {
        if leads_out(old, new, danger, pairs, pair, edge) {
            return Some(edge);
        }
        edge += 1;
    }
    None
}
