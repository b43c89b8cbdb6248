//! Who has the next place: the gains of the waiting tests, counted side by side.
ghost use Rattle.std.specs.Prelude.{◌≡◌, ◌<◌, length, IfOk, All};
ghost use Rattle.test_history.specs.Histories.{HaveRows};
ghost use Rattle.test_order.specs.Counts.{counted, IsFirstOf, IsFirstOfTests};

use crate::placed::Placed;
use edge_trace::EdgeRow;
use std::alloc::{AllocError, Global};
use std::thread;
use std::thread::Threads;
use test_gate::Gate;
use test_history::Entry;

/// Of the waiting tests the one of the greatest gain beyond the covered edges, the earliest in the history among equals.
/// So many workers count, each a chunk of the tests. An `Err` is want of memory.
pub(crate) fn next_place<R: Threads + Sync, G: Gate>(
    rt: &R,
    alloc: Global,
    entries: &[Entry],
    covered: &EdgeRow,
    waiting: &[u32],
    workers: usize,
    gate: &G,
) -> Result<Placed, AllocError>
    requires some { 0 < length waiting.now }
    requires stand { All (λ test. test < length entries.now) waiting.now }
    requires rows { HaveRows (length covered.now) entries.now }
    requires workers { 0 < workers }
    ensures { IfOk result (λ place. IsFirstOfTests entries.now covered.now waiting.now place) }
{
    let size = waiting.len().div_ceil(workers);
    let count = |_start: usize, chunk: &[u32]| -> Placed
        requires { HaveRows (length covered.now) entries.now
            × All (λ test. test < length entries.now) chunk.now × (0 < length chunk.now) }
        ensures { IsFirstOfTests entries.entry.now covered.entry.now chunk.entry.now result }
    { first_of_tests(entries, covered, chunk, gate) };
    let parts = thread::map_chunks(rt, alloc, waiting, size, &count)?;
    Ok(first_of_places(&parts))
}

/// Of a worker's tests the one that goes first.
fn first_of_tests<G: Gate>(entries: &[Entry], covered: &EdgeRow, tests: &[u32], gate: &G) -> Placed
    requires some { 0 < length tests.now }
    requires stand { All (λ test. test < length entries.now) tests.now }
    requires rows { HaveRows (length covered.now) entries.now }
    ensures { IsFirstOfTests entries.now covered.now tests.now result }
{
    let mut first = count_gain(entries, covered, tests[0], gate);
    for i in 1..tests.len() {
        let next = count_gain(entries, covered, tests[i], gate);
        if first.is_behind(next) {
            first = next;
        }
    }
    first
}

/// A test with its gain beyond the covered edges.
fn count_gain<G: Gate>(entries: &[Entry], covered: &EdgeRow, test: u32, gate: &G) -> Placed
    requires stands { test < length entries.now }
    requires rows { HaveRows (length covered.now) entries.now }
    ensures { result ≡ counted entries.now covered.now test }
{
    gate.enter(test as usize);
    let gain = entries[test as usize].crossed().beyond(covered);
    Placed { at: test, gain }
}

/// Of the places that the workers give the one that goes first.
fn first_of_places(places: &[Placed]) -> Placed
    requires { 0 < length places.now }
    ensures { IsFirstOf places.now result }
{
    let mut first = places[0];
    for i in 1..places.len() {
        if first.is_behind(places[i]) {
            first = places[i];
        }
    }
    first
}
