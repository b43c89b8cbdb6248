//! Both graphs of a walk, with the labels of their points by numbers.
ghost use Rattle.std.specs.Prelude.{◌≡◌, ◌+◌, ◌<◌, ◌^◌, ◌↔◌, IfOk, OnOk, IsTrue, map};
ghost use Rattle.csub_objects.specs.Types.{Name};
ghost use Rattle.csub_semantics.specs.Types.{global_tree};
ghost use Rattle.csub_semantics.specs.Points.{PointTree};
ghost use Rattle.csub_semantics.specs.Syntax.{ProgramTree};
ghost use Rattle.csub_semantics.specs.Flows.{flow_of};
ghost use Rattle.csub_semantics.specs.Books.{SameLabel};
ghost use Rattle.edge_label.specs.Numbers.{KeepsNumbers};
ghost use Rattle.edge_label.specs.Uses.{AreDeclared, standing_tree};
ghost use Rattle.flow_graph.specs.Graph.{IsGraphOf, point_count};
ghost use Rattle.dual_walk.specs.Held.{AreAt};
ghost use Rattle.dual_walk.specs.LabelRows.{AreNumbered, AreLabelsOf};
ghost use Rattle.dual_walk.specs.Prepared.{IsPrepared};

use crate::callees::Callee;
use edge_label::{LabelBook, Standing, Steps};
use flow_graph::Graph;
use std::alloc::{AllocError, Global};
use std::sync::ledger::Ledger;

/// The graphs of two programs, by each point of them the number of its label, and by each old point what is called there.
/// The numbers are of one book, so that points have equal labels exactly where their numbers are the same.
#[derive(Clone, Copy)]
pub struct Both<'a> {
    /// The old program's graph.
    pub old: &'a Graph,
    /// The new program's graph.
    pub new: &'a Graph,
    /// The labels that have numbers.
    pub book: &'a LabelBook,
    /// By each old point its label's number.
    pub old_labels: &'a [u32],
    /// By each new point its label's number.
    pub new_labels: &'a [u32],
    /// By each old point the function that is called there.
    pub callees: &'a [Option<Callee>],
}

/// By each point of a graph the number of its label, which the book gives where it hasn't yet. An `Err` is want of
/// memory: a graph has fewer than 2^30 points, so two graphs don't use up a book's numbers.
pub fn number_labels(
    alloc: Global,
    graph: &Graph,
    book: &mut LabelBook,
) -> Result<Vec<u32>, AllocError>
    ensures row { IfOk result (λ row. AreNumbered book.new row.items graph.now) }
    ensures keeps { OnOk result (KeepsNumbers book.old book.new) }
{
    let labels = list_labels(alloc, graph)?;
    book.intern_all(&labels, graph.globals())
}

/// The labels of a graph's points, each with the number of its function: in a program a name stands with the type of its
/// declaration, and a tag with the members of its own. An `Err` is want of memory.
fn list_labels(alloc: Global, graph: &Graph) -> Result<Vec<Standing<'_>>, AllocError>
    ensures labels { IfOk result (λ labels. AreLabelsOf graph.now labels.items) }
    ensures declared { IfOk result (λ labels. AreDeclared (map standing_tree labels.items) (map global_tree graph.now.2)) }
{
    let mut labels = Vec::new(alloc);
    for point in 0..graph.points() {
        labels.push(Standing {
            function: graph.function_at(point),
            label: graph.label_at(point),
        })?;
    }
    Ok(labels)
}

/// Whether an old point and a new one have equal labels, by their numbers. It is one question, which the walk counts and
/// its caller.
pub fn same_label<L: Ledger>(
    both: &Both<'_>,
    old: u32,
    new: u32,
    asked: &mut u64,
    steps: &mut Steps<L>,
) -> bool
    requires prepared { IsPrepared both.now }
    requires old { old < point_count both.now.old.now }
    requires new { new < point_count both.now.new.now }
    requires room { asked.old + 1 < 2 ^ 64 }
    ensures same { (P P' : ProgramTree) (f : Name) (p p' : PointTree) → IsGraphOf both.now.old.now P → IsGraphOf both.now.new.now P' →
        AreAt P P' old new f p p' → IsTrue result ↔ SameLabel (flow_of P) (flow_of P') f p p' }
    ensures asked { asked.new ≡ asked.old + 1 }
    ensures counted { steps.new ≡ steps.old + 1 }
{
    let number = both.old_labels[old as usize];
    let other = both.new_labels[new as usize];
    *asked += 1;
    both.book.same(number, other, steps)
}
