//! The text of a walk.
ghost use Rattle.std.specs.Prelude.{ℕ, List, ◌≡◌, ◌++◌, ◌∷◌, [], ◌≤◌, OnOk, IfOk, length};
ghost use Rattle.line_text.specs.Lines.{text_of_lines};
ghost use Rattle.csub_semantics.specs.Syntax.{ProgramTree};
ghost use Rattle.csub_semantics.specs.Flows.{edge_list};
ghost use Rattle.csub_validity.specs.Valid.{IsValid};
ghost use Rattle.flow_graph.specs.Graph.{IsGraphOf, edge_count};
ghost use Rattle.call_walk.specs.Walks.{IsWalk};
ghost use Rattle.source_place.specs.Lines.{IsTableOf};
ghost use Rattle.explain_report.specs.WalkTexts.{edge_lines, danger_line, pairs_line, walk_text};
ghost use Rattle.explain_report.specs.Walks.{IsWalkText};

use crate::edge::push_edge_line;
use call_walk::WalkResult;
use edge_trace::EdgeRow;
use flow_graph::Graph;
use line_text::push_decimal;
use source_place::LineTable;
use std::alloc::{AllocError, Global};

/// The text of a walk, by the graph and the source of its old program: for each dangerous edge, by rising number, the line
/// `edge E F L:C EXIT`, E its number, F the name of its function, L:C the place of its source point, and EXIT `next`, `true`,
/// `false`, `case V` or `default`; then the line `dangerous K of N`, that K of N edges are dangerous, and the line `pairs P`, that P
/// pairs are reached.
///
/// It goes once over the bytes of the source and once over the numbers of the edges, and takes a logarithm of the number of the
/// source's lines for each dangerous edge. An `Err` is want of memory.
pub fn walk_text(
    alloc: Global,
    walked: &WalkResult,
    old: &Graph,
    old_source: &[u8],
) -> Result<Vec<u8>, AllocError>
    requires row { length walked.now.danger ≡ edge_count old.now }
    requires short { length old_source.now ≤ 1048576 }
    ensures text { (P : ProgramTree) → IsGraphOf old.now P → IfOk result (λ text.
        text.items ≡ walk_text P old_source.now walked.now.danger (length walked.now.facts.items)) }
    ensures meant { (P P' : ProgramTree) → IsGraphOf old.now P → IsValid P' → IsWalk P P' walked.now
        → IfOk result (λ text. IsWalkText old_source.now P P' text.items) }
{
    let lines = LineTable::new(alloc, old_source)?;
    let mut text = Vec::new(alloc);
    push_edge_lines(&mut text, &walked.danger, old, &lines)?;
    push_danger_line(&mut text, &walked.danger)?;
    push_pairs_line(&mut text, walked.facts.len())?;
    Ok(text)
}

/// Appends the line of each edge of the row, by the lines of the old source.
fn push_edge_lines(
    text: &mut Vec<u8>,
    row: &EdgeRow,
    old: &Graph,
    lines: &LineTable,
) -> Result<(), AllocError>
    requires { length row.now ≡ edge_count old.now }
    ensures { (P : ProgramTree) (source : List ℕ) → IsGraphOf old.now P → IsTableOf source lines.now → OnOk result
        (text.new.items ≡ text.old.items ++ text_of_lines (edge_lines P source row.now 0 (edge_list P))) }
{
    for edge in 0..row.edges() {
        if row.has(edge) {
            push_edge_line(text, old, lines, edge)?;
        }
    }
    Ok(())
}

fn push_danger_line(text: &mut Vec<u8>, row: &EdgeRow) -> Result<(), AllocError>
    ensures { OnOk result (text.new.items ≡ text.old.items ++ danger_line row.now (length row.now) ++ 10 ∷ []) }
{
    text.extend_from_slice(b"dangerous ")?;
    push_decimal(text, u64::from(row.count()))?;
    text.extend_from_slice(b" of ")?;
    push_decimal(text, u64::from(row.edges()))?;
    text.push(b'\n')?;
    Ok(())
}

fn push_pairs_line(text: &mut Vec<u8>, pairs: usize) -> Result<(), AllocError>
    ensures { OnOk result (text.new.items ≡ text.old.items ++ pairs_line pairs ++ 10 ∷ []) }
{
    text.extend_from_slice(b"pairs ")?;
    push_decimal(text, pairs as u64)?;
    text.push(b'\n')?;
    Ok(())
}
