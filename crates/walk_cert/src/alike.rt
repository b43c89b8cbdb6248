//! Whether the points of a pair do the same.
ghost use Rattle.std.specs.Prelude.{◌<◌, ◌↔◌, IfOk, IsTrue};
ghost use Rattle.csub_semantics.specs.Syntax.{ProgramTree};
ghost use Rattle.flow_graph.specs.Graph.{IsGraphOf, point_count};
ghost use Rattle.dual_walk.specs.Prepared.{IsPrepared};
ghost use Rattle.walk_cert.specs.Claims.{AreAlike, AreNamedAlike};
ghost use Rattle.walk_cert.specs.Entries.{AreEntries, IsEntryFor};

use cert_text::Pair;
use dual_walk::Both;
use edge_label::Steps;
use flow_graph::Graph;
use std::alloc::{AllocError, Global};
use std::sync::ledger::Ledger;

/// By each point of the old graph the entry of the new function that has its function's name, or `None`. So names are
/// compared once for each point, and not for each pair. An `Err` is want of memory.
pub fn list_entries(alloc: Global, old: &Graph, new: &Graph) -> Result<Vec<Option<u32>>, AllocError>
    ensures { IfOk result (λ entries. AreEntries old.now new.now entries.items) }
{
    let mut entries = Vec::new(alloc);
    for point in 0..old.points() {
        entries.push(find_entry(old, new, point))?;
    }
    Ok(entries)
}

// The entry of the new function that has the name of a point's function.
fn find_entry(old: &Graph, new: &Graph, point: u32) -> Option<u32>
    requires { point < point_count old.now }
    ensures { IsEntryFor old.now new.now point result }
{
    let function = new.find(old.name_of(old.function_at(point)))?;
    Some(new.start_of(function))
}

/// Whether the points of a pair are of functions with one name, and have one label, by their numbers.
pub fn are_alike<L: Ledger>(
    both: &Both<'_>,
    entries: &[Option<u32>],
    pair: Pair,
    steps: &mut Steps<L>,
) -> bool
    requires prepared { IsPrepared both.now }
    requires entries { AreEntries both.now.old.now both.now.new.now entries.now }
    requires old { pair.old < point_count both.now.old.now }
    requires new { pair.new < point_count both.now.new.now }
    ensures { (P P' : ProgramTree) → IsGraphOf both.now.old.now P → IsGraphOf both.now.new.now P' → IsTrue result ↔ AreAlike P P' pair }
{
    let number = both.old_labels[pair.old as usize];
    let other = both.new_labels[pair.new as usize];
    both.book.same(number, other, steps) && are_named_alike(both, entries, pair)
}

// Whether the points of a pair are of functions with one name, by the entries of these.
fn are_named_alike(both: &Both<'_>, entries: &[Option<u32>], pair: Pair) -> bool
    requires entries { AreEntries both.now.old.now both.now.new.now entries.now }
    requires old { pair.old < point_count both.now.old.now }
    requires new { pair.new < point_count both.now.new.now }
    ensures { (P P' : ProgramTree) → IsGraphOf both.now.old.now P → IsGraphOf both.now.new.now P' → IsTrue result ↔ AreNamedAlike P P' pair }
{
    match entries[pair.old as usize] {
        Some(entry) => entry == both.new.start_of(both.new.function_at(pair.new)),
        None => false,
    }
}
