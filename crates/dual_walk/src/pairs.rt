//! The facts of a walk, and the set of their pairs.
ghost use Rattle.std.specs.Prelude.{◌≡◌, ◌<◌, ◌≤◌, ◌^◌, ◌⊎◌, ◌↔◌, ◌++◌, ℕ, [], ◌∷◌, Some, length, slice_get, slice_index, IfOk, IfSome, IfNone, IsTrue, OnErr, OnOk};
ghost use Rattle.dual_walk.specs.Held.{HasPair, has_pair};
ghost use Rattle.dual_walk.specs.Bits.{IsIn};
ghost use Rattle.dual_walk.specs.declared.fact.Fact.{Fact};

use crate::fact::Fact;
use crate::pair_set::PairSet;
use std::alloc::{AllocError, Global};

/// The facts of a walk, in order. Whether a pair is held says a bit, also where an old point has many partners.
#[derive(Drop)]
pub struct Pairs {
    /// The facts.
    pub facts: Vec<Fact>,
    /// By each old point, the place behind its last fact; 0 where it has none.
    pub ends: Vec<u32>,
    /// The pairs of the facts.
    pub held: PairSet,
    ghost few: { length facts.items < 2 ^ 32 },
    ghost long: { length ends.items ≡ held.height },
    ghost below: { (n : ℕ) → slice_index ends.items n ≤ length facts.items },
    ghost before: { (i : ℕ) (c : Fact) → slice_get facts.items i ≡ Some c → i < slice_index ends.items c.old },
    ghost marked: { (n n' : ℕ) → IsIn held.width held.words.items n n' ↔ IsTrue (has_pair facts.items n n') },
}

/// No facts, of so many old points and new ones. An `Err` is want of memory.
pub fn no_pairs(alloc: Global, points: u32, others: u32) -> Result<Pairs, AllocError>
    ensures facts { IfOk result (λ pairs. pairs.facts.items ≡ []) }
    ensures height { IfOk result (λ pairs. pairs.held.height ≡ points) }
    ensures width { IfOk result (λ pairs. pairs.held.width ≡ others) }
{
    let ends = vec![in alloc; 0; points as usize]?;
    let held = PairSet::new(alloc, points as usize, others as usize)?;
    Ok(Pairs {
        facts: Vec::new(alloc),
        ends,
        held,
    })
}

/// Whether a pair is held.
pub fn holds(pairs: &Pairs, old: u32, new: u32) -> bool
    requires old { old < pairs.now.held.height }
    requires new { new < pairs.now.held.width }
    ensures { IsTrue result ↔ HasPair pairs.now.facts.items old new }
{
    pairs.held.has(old as usize, new as usize)
}

/// Whether a fact is that of a pair.
fn is_of(fact: Fact, old: u32, new: u32) -> bool
    ensures { IsTrue result ↔ ((fact.old ≡ old) × (fact.new ≡ new)) }
{
    fact.old == old && fact.new == new
}

/// The place of the fact of a pair. If the pair is held, it is looked for from the last fact of its old point backwards:
/// that of an exit, which has no other partner, is found at once.
pub fn place_of(pairs: &Pairs, old: u32, new: u32) -> Option<u32>
    requires old { old < pairs.now.held.height }
    requires new { new < pairs.now.held.width }
    ensures some { IfSome result (λ place. (c : Fact) × (slice_get pairs.now.facts.items place ≡ Some c) × (c.old ≡ old) × (c.new ≡ new)) }
    ensures none { IfNone result (HasPair pairs.now.facts.items old new → ⊥) }
{
    if !holds(pairs, old, new) {
        return None;
    }
    let mut at = pairs.ends[old as usize];
    while at > 0 {
        at -= 1;
        if is_of(pairs.facts[at as usize], old, new) {
            return Some(at);
        }
    }
    None
}

/// Adds a fact, unless its pair is held. An `Err` is want of memory, which a list of 2^32 facts has long before; then the
/// facts are as before.
pub fn add(pairs: &mut Pairs, fact: Fact) -> Result<(), AllocError>
    requires old { fact.old < pairs.old.held.height }
    requires new { fact.new < pairs.old.held.width }
    ensures height { pairs.new.held.height ≡ pairs.old.held.height }
    ensures width { pairs.new.held.width ≡ pairs.old.held.width }
    ensures facts { (pairs.new.facts.items ≡ pairs.old.facts.items) ⊎ ((HasPair pairs.old.facts.items fact.old fact.new → ⊥) × (pairs.new.facts.items ≡ pairs.old.facts.items ++ fact ∷ [])) }
    ensures held { OnOk result (HasPair pairs.new.facts.items fact.old fact.new) }
    ensures err { OnErr result (pairs.new.facts.items ≡ pairs.old.facts.items) }
{
    if holds(pairs, fact.old, fact.new) {
        return Ok(());
    }
    if pairs.facts.len() >= 4_294_967_295 {
        return Err(AllocError);
    }
    let place = pairs.facts.len() as u32;
    pairs.facts.push(fact)?;
    pairs.ends[fact.old as usize] = place + 1;
    pairs.held.add(fact.old as usize, fact.new as usize);
    Ok(())
}
