//! The check of a claim.
ghost use Rattle.std.specs.Prelude.{◌≡◌, ◌<◌, length, Some, IfOk, MatchOption};
ghost use Rattle.csub_semantics.specs.Points.{entry};
ghost use Rattle.csub_semantics.specs.Syntax.{ProgramTree};
ghost use Rattle.flow_graph.specs.Graph.{IsGraphOf, point_count, edge_count};
ghost use Rattle.dual_walk.specs.Prepared.{IsPrepared};
ghost use Rattle.cert_text.specs.Certificates.{Rise};
ghost use Rattle.walk_cert.specs.Claims.{IsClosedClaim};
ghost use Rattle.walk_cert.specs.Entries.{AreEntries};
ghost use Rattle.walk_cert.specs.Verdicts.{AreBelow, IsKept, IsBreakAt, IsVerdict};

use crate::alike::{are_alike, list_entries};
use crate::answer::Verdict;
use crate::exits::first_way_out;
use crate::search::has_pair;
use cert_text::{Certificate, Pair};
use dual_walk::{Both, callee_at, list_callees, number_labels};
use edge_label::{LabelBook, Steps};
use edge_trace::EdgeRow;
use flow_graph::Graph;
use std::alloc::{AllocError, Global};
use std::marker::Brand;
use std::sync::ledger::{Blank, Ledger};

/// Whether the claim of a certificate of two graphs is closed, and else its first break: the start, and then for each pair in
/// order its label, its callee and its edges in order. An `Err` is want of memory.
///
/// Each label of both programs is numbered once, and for each old point the function of its name and its callee are looked
/// for once. For each pair it compares numbers, and for each edge of the old point looks its exit label up at the new point;
/// a pair is looked for by a logarithm of their number.
pub fn check(
    alloc: Global,
    old: &Graph,
    new: &Graph,
    certificate: &Certificate,
) -> Result<Verdict, AllocError>
    requires row { length certificate.now.danger ≡ edge_count old.now }
    requires below { AreBelow old.now new.now certificate.now.pairs }
    requires rise { Rise certificate.now.pairs }
    ensures verdict { (P P' : ProgramTree) → IsGraphOf old.now P → IsGraphOf new.now P' →
        IfOk result (IsVerdict P P' certificate.now.danger certificate.now.pairs) }
    // no break is found of a closed claim
    ensures closed { (P P' : ProgramTree) → IsGraphOf old.now P → IsGraphOf new.now P' →
        IsClosedClaim P P' certificate.now.danger certificate.now.pairs → IfOk result (λ verdict. verdict ≡ Verdict.Closed) }
{
    check_counted::<Brand>(alloc, old, new, certificate, Blank::new(1))
}

// The same, whose comparisons of labels are counted in the ledger of `blank`.
fn check_counted<L: Ledger>(
    alloc: Global,
    old: &Graph,
    new: &Graph,
    certificate: &Certificate,
    blank: Blank,
) -> Result<Verdict, AllocError>
    requires name { blank.name ≡ L.name }
    requires parts { blank.parts ≡ L.parts }
    requires some { 0 < blank.parts }
    requires row { length certificate.now.danger ≡ edge_count old.now }
    requires below { AreBelow old.now new.now certificate.now.pairs }
    requires rise { Rise certificate.now.pairs }
    ensures { (P P' : ProgramTree) → IsGraphOf old.now P → IsGraphOf new.now P' → IfOk result (IsVerdict P P' certificate.now.danger certificate.now.pairs) }
{
    let mut steps: Steps<L> = Steps::new(blank);
    // the book is dropped here alone, since that takes long to prove
    let mut book = LabelBook::new(alloc);
    check_by(alloc, old, new, certificate, &mut book, &mut steps)
}

// The same, with a book in which the labels get their numbers.
fn check_by<L: Ledger>(
    alloc: Global,
    old: &Graph,
    new: &Graph,
    certificate: &Certificate,
    book: &mut LabelBook,
    steps: &mut Steps<L>,
) -> Result<Verdict, AllocError>
    requires row { length certificate.now.danger ≡ edge_count old.now }
    requires below { AreBelow old.now new.now certificate.now.pairs }
    requires rise { Rise certificate.now.pairs }
    ensures { (P P' : ProgramTree) → IsGraphOf old.now P → IsGraphOf new.now P' → IfOk result (IsVerdict P P' certificate.now.danger certificate.now.pairs) }
{
    let old_labels = number_labels(alloc, old, book)?;
    let new_labels = number_labels(alloc, new, book)?;
    let callees = list_callees(alloc, old, new)?;
    let entries = list_entries(alloc, old, new)?;
    let both = Both {
        old,
        new,
        book: &*book,
        old_labels: &old_labels,
        new_labels: &new_labels,
        callees: &callees,
    };
    Ok(verdict_of(
        &both,
        &entries,
        certificate.danger(),
        certificate.pairs(),
        steps,
    ))
}

// What is found of a claim.
fn verdict_of<L: Ledger>(
    both: &Both<'_>,
    entries: &[Option<u32>],
    danger: &EdgeRow,
    pairs: &[Pair],
    steps: &mut Steps<L>,
) -> Verdict
    requires prepared { IsPrepared both.now }
    requires entries { AreEntries both.now.old.now both.now.new.now entries.now }
    requires row { length danger.now ≡ edge_count both.now.old.now }
    requires below { AreBelow both.now.old.now both.now.new.now pairs.now }
    requires rise { Rise pairs.now }
    ensures { (P P' : ProgramTree) → IsGraphOf both.now.old.now P → IsGraphOf both.now.new.now P' → IsVerdict P P' danger.now pairs.now result }
{
    // the points 0 are those at which both programs begin
    if !has_pair(pairs, 0, 0) {
        return Verdict::NoStart;
    }
    for pair in pairs {
        if let Some(found) = break_at(both, entries, danger, pairs, *pair, steps) {
            return found;
        }
    }
    Verdict::Closed
}

// The first break at a pair.
fn break_at<L: Ledger>(
    both: &Both<'_>,
    entries: &[Option<u32>],
    danger: &EdgeRow,
    pairs: &[Pair],
    pair: Pair,
    steps: &mut Steps<L>,
) -> Option<Verdict>
    requires prepared { IsPrepared both.now }
    requires entries { AreEntries both.now.old.now both.now.new.now entries.now }
    requires row { length danger.now ≡ edge_count both.now.old.now }
    requires old { pair.old < point_count both.now.old.now }
    requires new { pair.new < point_count both.now.new.now }
    requires rise { Rise pairs.now }
    ensures { (P P' : ProgramTree) → IsGraphOf both.now.old.now P → IsGraphOf both.now.new.now P' →
        MatchOption result (IsKept P P' danger.now pairs.now pair) (IsBreakAt P P' danger.now pairs.now pair) }
{
    if !are_alike(both, entries, pair, steps) {
        return Some(Verdict::Label(pair));
    }
    let Some(callee) = callee_at(both, pair.old) else {
        let edge = first_way_out(both.old, both.new, danger, pairs, pair)?;
        return Some(Verdict::Exit(pair, edge));
    };
    if !has_pair(pairs, callee.entry.old, callee.entry.new) {
        return Some(Verdict::Callee(pair));
    }
    // where the callee doesn't come back, no edge is crossed
    if !has_pair(pairs, callee.exit.old, callee.exit.new) {
        return None;
    }
    let edge = first_way_out(both.old, both.new, danger, pairs, pair)?;
    Some(Verdict::Exit(pair, edge))
}
