//! What follows from a fact by steps, and over the call at which it stands.
ghost use Rattle.std.specs.Prelude.{◌≡◌, ◌<◌, ◌≤◌, ◌+◌, ◌^◌, ◌⊎◌, ℕ, Some, length, slice_get, Contains, OnOk};
ghost use Rattle.csub_objects.specs.Types.{Name};
ghost use Rattle.csub_semantics.specs.Points.{PointTree, ExitTree, exit_tree, next};
ghost use Rattle.csub_semantics.specs.Syntax.{ProgramTree};
ghost use Rattle.csub_semantics.specs.Flows.{flow_of};
ghost use Rattle.csub_semantics.specs.Books.{IsNoCallAt};
ghost use Rattle.flow_graph.specs.Graph.{IsGraphOf, point_count, way_count_at};
ghost use Rattle.dual_walk.specs.Held.{AreAt, Extends};
ghost use Rattle.dual_walk.specs.Rows.{Lists, count_all};
ghost use Rattle.dual_walk.specs.Callees.{LeadsAlong};
ghost use Rattle.dual_walk.specs.Prepared.{IsPrepared};
ghost use Rattle.dual_walk.specs.Moments.{IsMoment, AreWaiting, IsCalledAt, IsPassed, Explains, HoldsNext, PassesOver, AreDone, IsFollowed, AreResumed};
ghost use Rattle.dual_walk.specs.declared.fact.Fact.{Fact};

use crate::ask::{Pair, are_exits, successors};
use crate::both::Both;
use crate::callees::{Callee, callee_at};
use crate::fact::{Fact, Why};
use crate::pairs::{Pairs, add, place_of};
use crate::rows::Rows;
use csub_semantics::ExitLabel;
use edge_label::Steps;
use flow_graph::EdgeEnds;
use std::alloc::AllocError;
use std::sync::ledger::Ledger;

/// Adds the successors of a fact along a way out, by which its old point leads to the point `to`, where their labels are
/// equal.
fn advance<L: Ledger>(
    both: &Both<'_>,
    pairs: &mut Pairs,
    from: Fact,
    to: u32,
    exit: &ExitLabel,
    why: Why,
    asked: &mut u64,
    steps: &mut Steps<L>,
) -> Result<(), AllocError>
    requires prepared { IsPrepared both.now }
    requires moment { IsMoment both.now.old.now both.now.new.now pairs.old }
    requires among { Contains pairs.old.facts.items from }
    requires to { to < point_count both.now.old.now }
    requires leads { LeadsAlong both.now.old.now from.old (exit_tree exit.now) to }
    requires why { Explains both.now.old.now both.now.new.now pairs.old.facts.items from (exit_tree exit.now) why }
    requires room { asked.old + 1 < 2 ^ 64 }
    ensures moment { IsMoment both.now.old.now both.now.new.now pairs.new }
    ensures grows { Extends pairs.old.facts.items pairs.new.facts.items }
    ensures held { OnOk result ((P P' : ProgramTree) → IsGraphOf both.now.old.now P → IsGraphOf both.now.new.now P' → HoldsNext P P' pairs.new.facts.items from (exit_tree exit.now)) }
    ensures counted { steps.new + asked.old ≡ steps.old + asked.new }
    ensures cost { asked.new ≤ asked.old + 1 }
{
    let pair = Pair {
        old: from.old,
        new: from.new,
    };
    let Some(next) = successors(both, pair, to, exit, asked, steps) else {
        return Ok(());
    };
    add(
        pairs,
        Fact {
            function: from.function,
            old: next.old,
            new: next.new,
            why,
        },
    )
}

/// Adds what follows by steps from a fact that is no call.
fn take_steps<L: Ledger>(
    both: &Both<'_>,
    pairs: &mut Pairs,
    at: u32,
    from: Fact,
    asked: &mut u64,
    steps: &mut Steps<L>,
) -> Result<(), AllocError>
    requires prepared { IsPrepared both.now }
    requires moment { IsMoment both.now.old.now both.now.new.now pairs.old }
    requires stands { slice_get pairs.old.facts.items at ≡ Some from }
    requires plain { (P P' : ProgramTree) (f : Name) (p p' : PointTree) → IsGraphOf both.now.old.now P → IsGraphOf both.now.new.now P' → AreAt P P' from.old from.new f p p' → IsNoCallAt (flow_of P) f p }
    requires room { asked.old + way_count_at both.now.old.now from.old < 2 ^ 64 }
    ensures moment { IsMoment both.now.old.now both.now.new.now pairs.new }
    ensures grows { Extends pairs.old.facts.items pairs.new.facts.items }
    ensures steps { OnOk result ((P P' : ProgramTree) → IsGraphOf both.now.old.now P → IsGraphOf both.now.new.now P' → (x : ExitTree) → HoldsNext P P' pairs.new.facts.items from x) }
    ensures counted { steps.new + asked.old ≡ steps.old + asked.new }
    ensures cost { asked.new ≤ asked.old + way_count_at both.now.old.now from.old }
{
    for edge in both.old.edges_of(from.old) {
        let EdgeEnds { from: _, exit, to } = both.old.edge_at(edge);
        let why = Why::Step(at, edge);
        advance(both, pairs, from, to, exit, why, asked, steps)?;
    }
    Ok(())
}

/// Passes over the call of a fact, by the fact of its callee's exits.
fn pass_over<L: Ledger>(
    both: &Both<'_>,
    pairs: &mut Pairs,
    at: u32,
    back: u32,
    asked: &mut u64,
    steps: &mut Steps<L>,
) -> Result<(), AllocError>
    requires prepared { IsPrepared both.now }
    requires moment { IsMoment both.now.old.now both.now.new.now pairs.old }
    requires at { at < length pairs.old.facts.items }
    requires over { (P P' : ProgramTree) → IsGraphOf both.now.old.now P → IsGraphOf both.now.new.now P' → PassesOver P P' pairs.old.facts.items at back }
    requires room { asked.old + 1 < 2 ^ 64 }
    ensures moment { IsMoment both.now.old.now both.now.new.now pairs.new }
    ensures grows { Extends pairs.old.facts.items pairs.new.facts.items }
    ensures held { OnOk result ((P P' : ProgramTree) (c : Fact) → IsGraphOf both.now.old.now P → IsGraphOf both.now.new.now P' → slice_get pairs.old.facts.items at ≡ Some c → HoldsNext P P' pairs.new.facts.items c next) }
    ensures counted { steps.new + asked.old ≡ steps.old + asked.new }
    ensures cost { asked.new ≤ asked.old + 1 }
{
    let from = pairs.facts[at as usize];
    let Some(to) = both.old.follow(from.old, &ExitLabel::Next) else {
        return Ok(());
    };
    advance(
        both,
        pairs,
        from,
        to,
        &ExitLabel::Next,
        Why::Over(at, back),
        asked,
        steps,
    )
}

/// Passes over the call of a fact, if the exits of its callee are held; else the call waits for them. So it is passed
/// over once.
fn pass_or_wait<L: Ledger>(
    both: &Both<'_>,
    pairs: &mut Pairs,
    waiting: &mut Rows,
    at: u32,
    callee: Callee,
    asked: &mut u64,
    steps: &mut Steps<L>,
) -> Result<(), AllocError>
    requires prepared { IsPrepared both.now }
    requires moment { IsMoment both.now.old.now both.now.new.now pairs.old }
    requires waiting { AreWaiting both.now.old.now both.now.new.now pairs.old.facts.items waiting.old }
    requires at { at < length pairs.old.facts.items }
    requires callee { IsCalledAt both.now.old.now both.now.new.now pairs.old.facts.items at callee }
    requires old_exit { callee.exit.old < point_count both.now.old.now }
    requires new_exit { callee.exit.new < point_count both.now.new.now }
    requires room { asked.old + 1 < 2 ^ 64 }
    ensures moment { IsMoment both.now.old.now both.now.new.now pairs.new }
    ensures grows { Extends pairs.old.facts.items pairs.new.facts.items }
    ensures waiting { OnOk result (AreWaiting both.now.old.now both.now.new.now pairs.new.facts.items waiting.new) }
    ensures waits { OnOk result ((n j : ℕ) → Lists waiting.old n j → Lists waiting.new n j) }
    ensures own { OnOk result ((P P' : ProgramTree) (c : Fact) → IsGraphOf both.now.old.now P → IsGraphOf both.now.new.now P' → slice_get pairs.old.facts.items at ≡ Some c → Lists waiting.new callee.exit.old at ⊎ HoldsNext P P' pairs.new.facts.items c next) }
    ensures over { OnOk result ((P P' : ProgramTree) (c : Fact) → IsGraphOf both.now.old.now P → IsGraphOf both.now.new.now P' → slice_get pairs.old.facts.items at ≡ Some c → IsPassed P P' pairs.new.facts.items c) }
    ensures counted { steps.new + asked.old ≡ steps.old + asked.new }
    ensures cost { asked.new + count_all waiting.new ≤ asked.old + count_all waiting.old + 1 }
{
    match place_of(pairs, callee.exit.old, callee.exit.new) {
        Some(back) => pass_over(both, pairs, at, back, asked, steps),
        None => waiting.push(callee.exit.old, at),
    }
}

/// Adds what follows over the call of a fact, if an edge leaves it.
fn follow_call<L: Ledger>(
    both: &Both<'_>,
    pairs: &mut Pairs,
    waiting: &mut Rows,
    at: u32,
    from: Fact,
    callee: Callee,
    asked: &mut u64,
    steps: &mut Steps<L>,
) -> Result<(), AllocError>
    requires prepared { IsPrepared both.now }
    requires moment { IsMoment both.now.old.now both.now.new.now pairs.old }
    requires waiting { AreWaiting both.now.old.now both.now.new.now pairs.old.facts.items waiting.old }
    requires stands { slice_get pairs.old.facts.items at ≡ Some from }
    requires callee { IsCalledAt both.now.old.now both.now.new.now pairs.old.facts.items at callee }
    requires old_exit { callee.exit.old < point_count both.now.old.now }
    requires new_exit { callee.exit.new < point_count both.now.new.now }
    requires room { asked.old + way_count_at both.now.old.now from.old < 2 ^ 64 }
    ensures moment { IsMoment both.now.old.now both.now.new.now pairs.new }
    ensures grows { Extends pairs.old.facts.items pairs.new.facts.items }
    ensures waiting { OnOk result (AreWaiting both.now.old.now both.now.new.now pairs.new.facts.items waiting.new) }
    ensures waits { OnOk result ((n j : ℕ) → Lists waiting.old n j → Lists waiting.new n j) }
    ensures followed { OnOk result ((P P' : ProgramTree) → IsGraphOf both.now.old.now P → IsGraphOf both.now.new.now P' → IsFollowed P P' pairs.new.facts.items waiting.new at from) }
    ensures counted { steps.new + asked.old ≡ steps.old + asked.new }
    ensures cost { asked.new + count_all waiting.new ≤ asked.old + count_all waiting.old + way_count_at both.now.old.now from.old }
{
    if both.old.edges_of(from.old).is_empty() {
        return Ok(());
    }
    pass_or_wait(both, pairs, waiting, at, callee, asked, steps)
}

/// Adds what follows from the fact at a place by steps, or over the call at which it stands.
fn follow_own<L: Ledger>(
    both: &Both<'_>,
    pairs: &mut Pairs,
    waiting: &mut Rows,
    at: u32,
    from: Fact,
    asked: &mut u64,
    steps: &mut Steps<L>,
) -> Result<(), AllocError>
    requires prepared { IsPrepared both.now }
    requires moment { IsMoment both.now.old.now both.now.new.now pairs.old }
    requires waiting { AreWaiting both.now.old.now both.now.new.now pairs.old.facts.items waiting.old }
    requires stands { slice_get pairs.old.facts.items at ≡ Some from }
    requires room { asked.old + way_count_at both.now.old.now from.old < 2 ^ 64 }
    ensures moment { IsMoment both.now.old.now both.now.new.now pairs.new }
    ensures grows { Extends pairs.old.facts.items pairs.new.facts.items }
    ensures waiting { OnOk result (AreWaiting both.now.old.now both.now.new.now pairs.new.facts.items waiting.new) }
    ensures waits { OnOk result ((n j : ℕ) → Lists waiting.old n j → Lists waiting.new n j) }
    ensures followed { OnOk result ((P P' : ProgramTree) → IsGraphOf both.now.old.now P → IsGraphOf both.now.new.now P' → IsFollowed P P' pairs.new.facts.items waiting.new at from) }
    ensures counted { steps.new + asked.old ≡ steps.old + asked.new }
    ensures cost { asked.new + count_all waiting.new ≤ asked.old + count_all waiting.old + way_count_at both.now.old.now from.old }
{
    match callee_at(both, from.old) {
        Some(callee) => follow_call(both, pairs, waiting, at, from, callee, asked, steps),
        None => take_steps(both, pairs, at, from, asked, steps),
    }
}

/// Passes over the calls that wait for a fact of exits; they wait no longer.
fn resume<L: Ledger>(
    both: &Both<'_>,
    pairs: &mut Pairs,
    waiting: &mut Rows,
    at: u32,
    from: Fact,
    asked: &mut u64,
    steps: &mut Steps<L>,
) -> Result<(), AllocError>
    requires prepared { IsPrepared both.now }
    requires moment { IsMoment both.now.old.now both.now.new.now pairs.old }
    requires waiting { AreWaiting both.now.old.now both.now.new.now pairs.old.facts.items waiting.old }
    requires stands { slice_get pairs.old.facts.items at ≡ Some from }
    requires room { asked.old + count_all waiting.old < 2 ^ 64 }
    ensures moment { IsMoment both.now.old.now both.now.new.now pairs.new }
    ensures grows { Extends pairs.old.facts.items pairs.new.facts.items }
    ensures waiting { OnOk result (AreWaiting both.now.old.now both.now.new.now pairs.new.facts.items waiting.new) }
    ensures resumed { OnOk result ((P P' : ProgramTree) → IsGraphOf both.now.old.now P → IsGraphOf both.now.new.now P' → AreResumed P P' pairs.new.facts.items waiting.old waiting.new from) }
    ensures counted { steps.new + asked.old ≡ steps.old + asked.new }
    ensures cost { asked.new ≤ asked.old + count_all waiting.old }
    ensures left { OnOk result (asked.new + count_all waiting.new ≤ asked.old + count_all waiting.old) }
{
    let pair = Pair {
        old: from.old,
        new: from.new,
    };
    if !are_exits(both.old, both.new, pair) {
        return Ok(());
    }
    for call in waiting.row(from.old) {
        pass_over(both, pairs, *call, at, asked, steps)?;
    }
    waiting.clear(from.old);
    Ok(())
}

/// Adds what follows from the fact at a place, where the facts before it have been followed.
pub fn follow<L: Ledger>(
    both: &Both<'_>,
    pairs: &mut Pairs,
    waiting: &mut Rows,
    at: u32,
    asked: &mut u64,
    steps: &mut Steps<L>,
) -> Result<(), AllocError>
    requires prepared { IsPrepared both.now }
    requires moment { IsMoment both.now.old.now both.now.new.now pairs.old }
    requires waiting { AreWaiting both.now.old.now both.now.new.now pairs.old.facts.items waiting.old }
    requires at { at < length pairs.old.facts.items }
    requires done { AreDone both.now.old.now both.now.new.now pairs.old.facts.items waiting.old at }
    requires room { (c : Fact) → slice_get pairs.old.facts.items at ≡ Some c → asked.old + count_all waiting.old + way_count_at both.now.old.now c.old < 2 ^ 64 }
    ensures moment { IsMoment both.now.old.now both.now.new.now pairs.new }
    ensures grows { Extends pairs.old.facts.items pairs.new.facts.items }
    ensures waiting { OnOk result (AreWaiting both.now.old.now both.now.new.now pairs.new.facts.items waiting.new) }
    ensures done { OnOk result (AreDone both.now.old.now both.now.new.now pairs.new.facts.items waiting.new (at + 1)) }
    ensures counted { steps.new + asked.old ≡ steps.old + asked.new }
    ensures cost { (c : Fact) → slice_get pairs.old.facts.items at ≡ Some c → asked.new ≤ asked.old + count_all waiting.old + way_count_at both.now.old.now c.old }
    ensures left { OnOk result ((c : Fact) → slice_get pairs.old.facts.items at ≡ Some c → asked.new + count_all waiting.new ≤ asked.old + count_all waiting.old + way_count_at both.now.old.now c.old) }
{
    let from = pairs.facts[at as usize];
    follow_own(both, pairs, waiting, at, from, asked, steps)?;
    resume(both, pairs, waiting, at, from, asked, steps)
}
