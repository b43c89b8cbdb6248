//! The certificate of a walk.
ghost use Rattle.std.specs.Prelude.{◌≡◌, IfOk, map};
ghost use Rattle.csub_semantics.specs.Syntax.{ProgramTree};
ghost use Rattle.flow_graph.specs.Graph.{IsGraphOf};
ghost use Rattle.call_walk.specs.Walks.{IsWalk};
ghost use Rattle.sha2.specs.Sha256.{sha256};
ghost use Rattle.walk_cert.specs.Claims.{IsClosedClaim};
ghost use Rattle.walk_cert.specs.Made.{IsOfWalk, tuple_of};

use crate::search::comes_after;
use call_walk::WalkResult;
use call_walk::laws::reached_is_closed;
use cert_text::{Certificate, Pair};
use dual_walk::Fact;
use flow_graph::Graph;
use sha2::{Digest, Sha256};
use std::alloc::{AllocError, Global};

/// The certificate of the walk of two graphs: the digests of both sources, the dangerous edges, and the reached pairs, each
/// once, in rising order. Its claim is closed. An `Err` is want of memory. It sorts the pairs; the graphs are asked for by the
/// contract alone.
pub fn certificate_of(
    alloc: Global,
    _old: &Graph,
    _new: &Graph,
    walked: &WalkResult,
    old_source: &[u8],
    new_source: &[u8],
) -> Result<Certificate, AllocError>
    requires { (P P' : ProgramTree) → IsGraphOf _old.now P → IsGraphOf _new.now P' → IsWalk P P' walked.now }
    ensures old { IfOk result (λ certificate. certificate.old ≡ sha256 old_source.now) }
    ensures new { IfOk result (λ certificate. certificate.new ≡ sha256 new_source.now) }
    ensures danger { IfOk result (λ certificate. certificate.danger ≡ walked.now.danger) }
    ensures pairs { IfOk result (λ certificate. IsOfWalk walked.now.facts.items certificate.pairs) }
    // no break is found of it
    ensures closed { (P P' : ProgramTree) → IsGraphOf _old.now P → IsGraphOf _new.now P' →
        IfOk result (λ certificate. IsClosedClaim P P' certificate.danger certificate.pairs) }
{
    // the law from which the clause `closed` follows
    reached_is_closed();
    let pairs = rising_pairs(alloc, &walked.facts)?;
    Ok(Certificate::new(
        Sha256::digest(old_source),
        Sha256::digest(new_source),
        walked.danger.copy()?,
        pairs,
    ))
}

// The pairs of facts, each once, in rising order.
fn rising_pairs(alloc: Global, facts: &[Fact]) -> Result<Vec<Pair>, AllocError>
    ensures { IfOk result (λ pairs. IsOfWalk facts.now pairs.items) }
{
    let mut numbers = list_numbers(alloc, facts)?;
    numbers.sort()?;
    let mut pairs = Vec::with_capacity(alloc, numbers.len())?;
    let mut last = None;
    for (old, new) in &numbers {
        let pair = Pair {
            old: *old,
            new: *new,
        };
        if comes_after(last, pair) {
            pairs.push(pair)?;
        }
        last = Some(pair);
    }
    Ok(pairs)
}

// The numbers of both points of each fact.
fn list_numbers(alloc: Global, facts: &[Fact]) -> Result<Vec<(u32, u32)>, AllocError>
    ensures { IfOk result (λ numbers. numbers.items ≡ map tuple_of facts.now) }
{
    let mut numbers = Vec::with_capacity(alloc, facts.len())?;
    for fact in facts {
        numbers.push((fact.old, fact.new))?;
    }
    Ok(numbers)
}
