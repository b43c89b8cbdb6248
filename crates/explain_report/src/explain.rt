//! The text that explains the choice for a test.
ghost use Rattle.std.specs.Prelude.{ℕ, List, ◌≡◌, ◌<◌, ◌≤◌, ◌++◌, All, IfOk, OnOk, IsTrue, Some, length, slice_get};
ghost use Rattle.std.specs.List.{AllZip};
ghost use Rattle.line_text.specs.Lines.{text_of_lines};
ghost use Rattle.csub_semantics.specs.Syntax.{ProgramTree};
ghost use Rattle.csub_semantics.specs.Flows.{Edge};
ghost use Rattle.csub_semantics.specs.Numbers.{edge_at};
ghost use Rattle.edge_trace.specs.Rows.{has};
ghost use Rattle.flow_graph.specs.Graph.{IsGraphOf, edge_count, point_count};
ghost use Rattle.call_walk.specs.Walks.{IsWalk};
ghost use Rattle.source_place.specs.Lines.{IsTableOf};
ghost use Rattle.test_history.specs.Histories.{EntryParts};
ghost use Rattle.test_select.specs.Selection.{Chooses};
ghost use Rattle.test_select.specs.declared.choice.Choice.{Choice};
ghost use Rattle.explain_report.specs.Explanations.{IsExplanation, IsExplainText};
ghost use Rattle.explain_report.specs.Dangers.{Argues, IsTellable};

use crate::book::{Book, book_of};
use crate::edge::push_edge_line;
use crate::shown::find_shown;
use crate::told::{push_fact_lines, push_parting_line};
use call_walk::WalkResult;
use flow_graph::Graph;
use source_place::LineTable;
use std::alloc::{AllocError, Global};
use test_history::History;
use test_select::{Choice, push_choice_line};

/// The text that explains the choice for the test at a place of the history, by the walk of an old program and a new one, their
/// graphs and their sources: `left NAME` where the test is left, and where it is selected these lines:
///
/// - `run NAME edge E`, E the least dangerous edge that the test crossed, and `edge E F L:C EXIT`, the line of that edge as the text
///   of a walk has it;
/// - a line `K F P Q WHY` for each fact of the walk that is needed to reach the edge and to show its danger: its number, from 1, the
///   name of its function, the numbers of an old point and a new one that are reached together, and why they are: `start`, from fact J
///   along a way out `step J EXIT`, from the call of fact J into the callee `call J`, or over the call of fact J since fact M is of the
///   callee's exits `over J M`, where J and M are less than K;
/// - `danger K EXIT NEW`, where fact K is of the source of edge E and EXIT is the edge's way out, and NEW the place in the new source of
///   the point that follows by EXIT in the new version, which has another label than the one in the old version, or `none` where the
///   new point has no such way out; at a call `danger K J EXIT NEW`, where fact J is of the callee's exits.
///
/// It goes five times over the facts, compares a name for each fact of exits, and goes once over the bytes of each source; it takes
/// memory for a flag for each new point, and for a flag and a number for each fact. An `Err` is want of memory.
pub fn explain_text(
    alloc: Global,
    history: &History,
    choices: &[Choice],
    at: usize,
    walked: &WalkResult,
    old: &Graph,
    new: &Graph,
    old_source: &[u8],
    new_source: &[u8],
) -> Result<Vec<u8>, AllocError>
    requires choices { length choices.now ≡ length history.now.entries }
    requires at { at < length history.now.entries }
    requires row { length walked.now.danger ≡ edge_count old.now }
    requires chosen { AllZip (λ entry choice. Chooses entry.crossed walked.now.danger choice) history.now.entries choices.now }
    requires short { length old_source.now ≤ 1048576 }
    requires new_short { length new_source.now ≤ 1048576 }
    requires walk { (P P' : ProgramTree) × IsGraphOf old.now P × IsGraphOf new.now P' × IsWalk P P' walked.now }
    ensures { (P P' : ProgramTree) (entry : EntryParts) (choice : Choice) → IsGraphOf old.now P → IsGraphOf new.now P' → IsWalk P P' walked.now
        → slice_get history.now.entries at ≡ Some entry → slice_get choices.now at ≡ Some choice
        → IfOk result (λ text. IsExplainText old_source.now new_source.now P P' entry choice text.items) }
{
    let mut text = Vec::new(alloc);
    let choice = choices[at];
    push_choice_line(&mut text, &history.entries()[at], choice)?;
    match choice {
        Choice::Left => Ok(text),
        Choice::Selected(edge) => {
            let book = explain(alloc, walked, old, new, edge)?;
            let lines = LineTable::new(alloc, old_source)?;
            let new_lines = LineTable::new(alloc, new_source)?;
            push_explanation(&mut text, old, new, &lines, &new_lines, edge, &book)?;
            Ok(text)
        }
    }
}

/// The book that shows that an edge is dangerous. An `Err` is want of memory.
fn explain(
    alloc: Global,
    walked: &WalkResult,
    old: &Graph,
    new: &Graph,
    edge: u32,
) -> Result<Book, AllocError>
    requires edge { edge < edge_count old.now }
    requires walk { (P P' : ProgramTree) × IsGraphOf old.now P × IsGraphOf new.now P' × IsWalk P P' walked.now }
    requires danger { IsTrue (has walked.now.danger edge) }
    ensures argues { IfOk result (λ book. (P P' : ProgramTree) (e : Edge) → IsGraphOf old.now P → IsGraphOf new.now P' → IsWalk P P' walked.now → edge_at P edge ≡ Some e
        → Argues P P' book.facts.items e book.shown) }
    ensures tellable { IfOk result (λ book. All (IsTellable old.now) book.facts.items) }
    ensures place { IfOk result (λ book. book.shown.place < length book.facts.items) }
    ensures points { IfOk result (λ book. All (λ c. c.new < point_count new.now) book.facts.items) }
{
    if walked.facts.len() > u32::MAX as usize {
        return Err(AllocError);
    }
    let shown = find_shown(alloc, walked, old, new, edge)?;
    book_of(alloc, walked.facts.as_slice(), shown)
}

/// Appends the line of an edge, the lines of a book that shows that it is dangerous, and the line of the danger.
fn push_explanation(
    text: &mut Vec<u8>,
    old: &Graph,
    new: &Graph,
    lines: &LineTable,
    new_lines: &LineTable,
    edge: u32,
    book: &Book,
) -> Result<(), AllocError>
    requires edge { edge < edge_count old.now }
    requires tellable { All (IsTellable old.now) book.now.facts.items }
    requires place { book.now.shown.place < length book.now.facts.items }
    requires points { All (λ c. c.new < point_count new.now) book.now.facts.items }
    ensures { (P P' : ProgramTree) (source source' : List ℕ) (e : Edge) → IsGraphOf old.now P → IsGraphOf new.now P' → IsTableOf source lines.now → IsTableOf source' new_lines.now
        → edge_at P edge ≡ Some e → Argues P P' book.now.facts.items e book.now.shown
        → OnOk result ((told : List (List ℕ)) × IsExplanation source source' P P' edge told × (text.new.items ≡ text.old.items ++ text_of_lines told)) }
{
    push_edge_line(text, old, lines, edge)?;
    push_fact_lines(text, old, &book.facts)?;
    let fact = book.facts[book.shown.place as usize];
    let exit = old.edge_at(edge).exit;
    push_parting_line(text, new, new_lines, book.shown, fact.new, exit)
}
