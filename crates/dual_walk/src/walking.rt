//! The walk of two graphs by steps.
ghost use Rattle.std.specs.Prelude.{◌≡◌, ◌<◌, ◌≤◌, ◌+◌, ◌*◌, ◌↔◌, [], Some, length, slice_get, IfOk, OnOk, IsTrue};
ghost use Rattle.csub_semantics.specs.Syntax.{ProgramTree};
ghost use Rattle.flow_graph.specs.Graph.{IsGraphOf, edge_count, point_count};
ghost use Rattle.dual_walk.specs.Books.{IsExplained};
ghost use Rattle.dual_walk.specs.Held.{HasPair, Extends, IsWithin, IsBookOf, IsClosedUnder};
ghost use Rattle.dual_walk.specs.Prepared.{IsPrepared};
ghost use Rattle.dual_walk.specs.Rest.{facts_of, asked_of, IsUnderWay, IsAtRest};
ghost use Rattle.dual_walk.specs.declared.fact.Fact.{Fact};

use crate::both::Both;
use crate::fact::{Fact, Why};
use crate::follow::follow;
use crate::pairs::{Pairs, add, holds, no_pairs};
use crate::rows::Rows;
use edge_label::Steps;
use flow_graph::Graph;
use std::alloc::{AllocError, Global};
use std::sync::ledger::Ledger;

/// The pairs of points of two graphs that a walk holds, each with its reason.
///
/// Between two calls a walk is at rest: what follows from the held pairs by steps is held too. The facts are their own
/// queue: a fact is followed once, in the order in which they were found.
#[derive(Drop)]
pub struct Walk {
    /// The facts, with the set of their pairs.
    pairs: Pairs,
    /// By each old exit point, the places of the calls that wait for it.
    waiting: Rows,
    /// How many facts have been followed.
    next: usize,
    /// How many questions were asked.
    asked: u64,
}

impl Walk {
    /// A walk of two graphs that holds no pair. An `Err` is want of memory: it takes a bit for each old point and new
    /// point, and an empty list for each old point.
    pub fn new(alloc: Global, old: &Graph, new: &Graph) -> Result<Walk, AllocError>
        ensures rests { IfOk result (IsAtRest old.now new.now) }
        ensures none { IfOk result (λ walk. facts_of walk ≡ []) }
        ensures asked { IfOk result (λ walk. asked_of walk ≡ 0) }
    {
        let pairs = no_pairs(alloc, old.points(), new.points())?;
        let waiting = Rows::new(alloc, old.points())?;
        // 64 bits count all questions: one is asked at most for each old edge and new point.
        let most = old.edges() as u64 * new.points() as u64;
        prove!(most < u64::MAX);
        Ok(Walk {
            pairs,
            waiting,
            next: 0,
            asked: 0,
        })
    }

    /// Adds a pair and all that follows from it by steps, and by calls that are passed over since the exits of their
    /// callee are held. Callees aren't entered. Nothing is added where the pair is held. An `Err` is want of memory: then
    /// what is held stays, each fact with its reason, and the walk takes no more pairs.
    ///
    /// It asks whether two labels are equal, once at most for each edge of a held pair, however many pairs are added;
    /// `steps` counts its questions, also before an `Err`.
    pub fn add<L: Ledger>(
        &mut self,
        both: &Both<'_>,
        fact: Fact,
        steps: &mut Steps<L>,
    ) -> Result<(), AllocError>
        requires prepared { IsPrepared both.now }
        requires rests { IsAtRest both.now.old.now both.now.new.now self.old }
        requires within { IsWithin both.now.old.now both.now.new.now fact }
        requires explained { (P P' : ProgramTree) → IsGraphOf both.now.old.now P → IsGraphOf both.now.new.now P' → IsExplained P P' (facts_of self.old) fact }
        ensures rests { OnOk result (IsAtRest both.now.old.now both.now.new.now self.new) }
        ensures held { OnOk result (HasPair (facts_of self.new) fact.old fact.new) }
        ensures closed { OnOk result ((P P' : ProgramTree) → IsGraphOf both.now.old.now P → IsGraphOf both.now.new.now P' → IsClosedUnder P P' (facts_of self.new)) }
        ensures grows { Extends (facts_of self.old) (facts_of self.new) }
        ensures book { IsBookOf both.now.old.now both.now.new.now (facts_of self.new) }
        ensures counted { steps.new + asked_of self.old ≡ steps.old + asked_of self.new }
        ensures few { asked_of self.new ≤ edge_count both.now.old.now * point_count both.now.new.now }
    {
        add(&mut self.pairs, fact)?;
        self.follow_all(both, steps)
    }

    /// Adds what follows from the facts that haven't been followed.
    fn follow_all<L: Ledger>(
        &mut self,
        both: &Both<'_>,
        steps: &mut Steps<L>,
    ) -> Result<(), AllocError>
        requires prepared { IsPrepared both.now }
        requires under_way { IsUnderWay both.now.old.now both.now.new.now self.old }
        ensures rests { OnOk result (IsAtRest both.now.old.now both.now.new.now self.new) }
        ensures grows { Extends (facts_of self.old) (facts_of self.new) }
        ensures book { IsBookOf both.now.old.now both.now.new.now (facts_of self.new) }
        ensures counted { steps.new + asked_of self.old ≡ steps.old + asked_of self.new }
        ensures few { asked_of self.new ≤ edge_count both.now.old.now * point_count both.now.new.now }
    {
        while self.next < self.pairs.facts.len() {
            let at = self.next as u32;
            follow(
                both,
                &mut self.pairs,
                &mut self.waiting,
                at,
                &mut self.asked,
                steps,
            )?;
            self.next += 1;
        }
        Ok(())
    }

    /// The held facts, in the order in which they were found.
    pub fn pairs(&self) -> &[Fact]
        ensures { result.now ≡ facts_of self.now }
    {
        self.pairs.facts.as_slice()
    }

    /// The reason of a held fact.
    pub fn why(&self, at: usize) -> &Why
        requires { at < length (facts_of self.now) }
        ensures { (c : Fact) → slice_get (facts_of self.now) at ≡ Some c → result.now ≡ c.why }
    {
        &self.pairs.facts[at].why
    }

    /// Whether a pair is held; it looks at one bit.
    pub fn has(&self, old: u32, new: u32) -> bool
        ensures { IsTrue result ↔ HasPair (facts_of self.now) old new }
    {
        if old as usize >= self.pairs.held.height {
            return false;
        }
        if new as usize >= self.pairs.held.width {
            return false;
        }
        holds(&self.pairs, old, new)
    }

    /// The held facts, as a list of their own.
    pub fn into_facts(self) -> Vec<Fact>
        ensures { result.items ≡ facts_of self }
    {
        self.pairs.facts
    }
}
