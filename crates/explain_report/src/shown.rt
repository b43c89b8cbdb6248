//! Which facts of a walk show that an edge is dangerous.
ghost use Rattle.std.specs.Prelude.{ℕ, ◌≡◌, ◌<◌, ◌↔◌, ◌^◌, All, IfOk, IfSome, IfNone, IsTrue, MatchOption, Some, length, slice_get};
ghost use Rattle.csub_objects.specs.Types.{Name};
ghost use Rattle.csub_semantics.specs.Points.{PointTree, exit, exit_tree, point_tree};
ghost use Rattle.csub_semantics.specs.Syntax.{ProgramTree};
ghost use Rattle.csub_semantics.specs.Flows.{Edge, flow_of};
ghost use Rattle.csub_semantics.specs.Numbers.{edge_at, site, site_at};
ghost use Rattle.csub_semantics.specs.Books.{CallsAt};
ghost use Rattle.edge_trace.specs.Rows.{has};
ghost use Rattle.flow_graph.specs.Graph.{IsGraphOf, edge_count, point_count};
ghost use Rattle.dual_walk.specs.declared.fact.Fact.{Fact};
ghost use Rattle.dual_walk.specs.Books.{IsNamed};
ghost use Rattle.call_walk.specs.Walks.{IsWalk};
ghost use Rattle.dual_walk.specs.Held.{AreAt, IsHeld, IsWithin};
ghost use Rattle.explain_report.specs.Explanations.{ComesBackBy};
ghost use Rattle.explain_report.specs.Dangers.{AreWithin, AreNamed, ArePartners, LeadsToNone, LeadsToNoneAt, IsShown};

use call_walk::laws::reached_is_closed;
use call_walk::{Fact, WalkResult};
use csub_semantics::{ExitLabel, Label, Point};
use csub_text::Text;
use flow_graph::{EdgeEnds, Graph};
use std::alloc::{AllocError, Global};

/// The places of the facts that show that an edge is dangerous.
#[derive(Clone, Copy)]
pub struct Shown {
    /// A fact of the edge's source, from whose new point no equal label follows along the edge's way out.
    pub place: u32,
    /// Where the source is a call, a fact of the exits of the callee.
    pub back: Option<u32>,
}

/// Facts that show that an edge is dangerous. It goes three times over the facts, and takes a flag for each new point. An
/// `Err` is want of memory.
pub fn find_shown(
    alloc: Global,
    walked: &WalkResult,
    old: &Graph,
    new: &Graph,
    edge: u32,
) -> Result<Shown, AllocError>
    requires edge { edge < edge_count old.now }
    requires within { AreWithin old.now new.now walked.now.facts.items }
    requires few { length walked.now.facts.items < 2 ^ 32 }
    requires walk { (P P' : ProgramTree) × IsGraphOf old.now P × IsGraphOf new.now P' × IsWalk P P' walked.now }
    requires danger { IsTrue (has walked.now.danger edge) }
    ensures place { IfOk result (λ shown. shown.place < length walked.now.facts.items) }
    ensures back { IfOk result (λ shown. IfSome shown.back (λ place. place < length walked.now.facts.items)) }
    ensures shown { IfOk result (λ shown. (P P' : ProgramTree) (e : Edge) → IsGraphOf old.now P → IsGraphOf new.now P' → IsWalk P P' walked.now → edge_at P edge ≡ Some e
        → IsShown P P' walked.now.facts.items e shown) }
{
    let facts = walked.facts.as_slice();
    let EdgeEnds { from, exit, to } = old.edge_at(edge);
    // Equal successors of a reached pair would be reached, and so be partners.
    reached_is_closed();
    let partners = list_partners(alloc, facts, to, new.points())?;
    let Some(place) = find_parting(facts, new, &partners, from, exit) else {
        unreachable!();
    };
    let back = find_back(facts, old, new, from);
    Ok(Shown { place, back })
}

/// By each new point, whether a fact holds it with an old one. An `Err` is want of memory.
fn list_partners(
    alloc: Global,
    facts: &[Fact],
    old: u32,
    points: u32,
) -> Result<Vec<bool>, AllocError>
    requires { All (λ c. c.new < points) facts.now }
    ensures long { IfOk result (λ partners. length partners.items ≡ points) }
    ensures partners { IfOk result (λ partners. ArePartners facts.now old partners.items) }
{
    let mut partners = vec![in alloc; false; points as usize]?;
    for fact in facts {
        if fact.old == old {
            partners[fact.new as usize] = true;
        }
    }
    Ok(partners)
}

/// The place of the first fact of an old point, from whose new point no partner follows along a way out.
fn find_parting(
    facts: &[Fact],
    new: &Graph,
    partners: &[bool],
    from: u32,
    exit: &ExitLabel,
) -> Option<u32>
    requires few { length facts.now < 2 ^ 32 }
    requires within { All (λ c. c.new < point_count new.now) facts.now }
    requires long { length partners.now ≡ point_count new.now }
    ensures found { IfSome result (λ place. (c : Fact) × (slice_get facts.now place ≡ Some c) × (c.old ≡ from) × LeadsToNoneAt new.now partners.now c.new (exit_tree exit.now)) }
    ensures none { IfNone result ((i : ℕ) (c : Fact) (P' : ProgramTree) (f : Name) (p' : PointTree) → slice_get facts.now i ≡ Some c → c.old ≡ from → IsGraphOf new.now P'
        → site_at P' c.new ≡ Some (site f p') → LeadsToNone P' partners.now f p' (exit_tree exit.now) → ⊥) }
{
    for (place, fact) in facts.iter().enumerate() {
        if fact.old == from && parts(new, partners, fact.new, exit) {
            return Some(place as u32);
        }
    }
    None
}

/// Whether no partner follows a new point along a way out.
fn parts(new: &Graph, partners: &[bool], point: u32, exit: &ExitLabel) -> bool
    requires point { point < point_count new.now }
    requires long { length partners.now ≡ point_count new.now }
    ensures { (P' : ProgramTree) (f : Name) (p' : PointTree) → IsGraphOf new.now P' → site_at P' point ≡ Some (site f p') → IsTrue result ↔ LeadsToNone P' partners.now f p' (exit_tree exit.now) }
{
    match new.follow(point, exit) {
        Some(next) => !partners[next as usize],
        None => true,
    }
}

/// The place of the fact by which what is called at an old point comes back; `None` where nothing is called, or it doesn't come back.
fn find_back(facts: &[Fact], old: &Graph, new: &Graph, point: u32) -> Option<u32>
    requires few { length facts.now < 2 ^ 32 }
    requires within { AreWithin old.now new.now facts.now }
    requires point { point < point_count old.now }
    ensures place { IfSome result (λ place. place < length facts.now) }
    ensures back { (P P' : ProgramTree) (f : Name) (p : PointTree) → IsGraphOf old.now P → IsGraphOf new.now P' → AreNamed P P' facts.now → site_at P point ≡ Some (site f p)
        → MatchOption result ((g : Name) → CallsAt (flow_of P) f p g → IsHeld P P' facts.now g exit exit → ⊥) (λ place. ComesBackBy P P' facts.now f p (Some place)) }
{
    match old.label_at(point) {
        Label::Call(call) => find_exits(facts, old, new, &call.callee),
        _ => None,
    }
}

/// The place of the first fact of the exits of a function, by its name.
fn find_exits(facts: &[Fact], old: &Graph, new: &Graph, name: &Text) -> Option<u32>
    requires few { length facts.now < 2 ^ 32 }
    requires within { AreWithin old.now new.now facts.now }
    ensures place { IfSome result (λ place. place < length facts.now) }
    ensures exits { (P P' : ProgramTree) → IsGraphOf old.now P → IsGraphOf new.now P' → AreNamed P P' facts.now
        → MatchOption result (IsHeld P P' facts.now name.now exit exit → ⊥) (λ place. (d : Fact) × (slice_get facts.now place ≡ Some d) × AreAt P P' d.old d.new name.now exit exit) }
{
    for (place, fact) in facts.iter().enumerate() {
        if is_at_exits(old, new, *fact, name) {
            return Some(place as u32);
        }
    }
    None
}

/// Whether a fact is of the exits of a function, by its name.
fn is_at_exits(old: &Graph, new: &Graph, fact: Fact, name: &Text) -> bool
    requires { IsWithin old.now new.now fact }
    ensures { (P P' : ProgramTree) → IsGraphOf old.now P → IsGraphOf new.now P' → IsNamed P P' fact → IsTrue result ↔ AreAt P P' fact.old fact.new name.now exit exit }
{
    is_exit(new.point_at(fact.new))
        && is_exit(old.point_at(fact.old))
        && *old.name_of(fact.function) == *name
}

/// Whether a point is an exit.
fn is_exit(point: &Point) -> bool
    ensures { IsTrue result ↔ (point_tree point.now ≡ exit) }
{
    matches!(point, Point::Exit)
}
