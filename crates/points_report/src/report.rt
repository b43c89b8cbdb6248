//! The whole text.
ghost use Rattle.std.specs.Prelude.{◌≡◌, ◌≤◌, ◌++◌, ◌∷◌, [], OnOk, IfOk, length, codes};
ghost use Rattle.std.specs.Fmt.{decimal};
ghost use Rattle.line_text.specs.Lines.{text_of_lines};
ghost use Rattle.line_text.specs.Words.{line_of_words};
ghost use Rattle.csub_semantics.specs.Syntax.{ProgramTree};
ghost use Rattle.csub_semantics.specs.Flows.{point_list};
ghost use Rattle.flow_graph.specs.Graph.{IsGraphOf};
ghost use Rattle.source_place.specs.Lines.{IsTableOf};
ghost use Rattle.points_report.specs.PointTexts.{point_lines, points_text};

use crate::edge::push_edge_lines;
use crate::point::push_point_line;
use flow_graph::Graph;
use line_text::push_decimal;
use source_place::LineTable;
use std::alloc::{AllocError, Global};

/// The text that lists the points and the edges of a program, by its graph and its source: the line `points 1`; for each point,
/// by rising number, the line `point P FUNCTION L:C TEXT`, and behind it for each edge that leaves the point the line
/// `edge E P EXIT Q`; and the line `end POINTS EDGES`. L:C is the place that is named for the point, TEXT the rest of that line of
/// the source, of which at most 80 bytes are shown, and Q the number of the point to which the edge leads.
///
/// It goes once over the bytes of the source and once over the points and the edges, and takes a logarithm of the number of the
/// source's lines for each point. An `Err` is want of memory.
pub fn points_text(alloc: Global, graph: &Graph, source: &[u8]) -> Result<Vec<u8>, AllocError>
    requires { length source.now ≤ 1048576 }
    ensures { (P : ProgramTree) → IsGraphOf graph.now P → IfOk result (λ text. text.items ≡ points_text P source.now) }
{
    let lines = LineTable::new(alloc, source)?;
    let mut text = b"points 1\n".to_vec(alloc)?;
    push_points(&mut text, graph, source, &lines)?;
    push_end_line(&mut text, graph.points(), graph.edges())?;
    Ok(text)
}

/// Appends the line of each point, and behind it those of the edges that leave it.
fn push_points(
    text: &mut Vec<u8>,
    graph: &Graph,
    source: &[u8],
    lines: &LineTable,
) -> Result<(), AllocError>
    ensures { (P : ProgramTree) → IsGraphOf graph.now P → IsTableOf source.now lines.now → OnOk result
        (text.new.items ≡ text.old.items ++ text_of_lines (point_lines P source.now 0 (point_list P))) }
{
    for point in 0..graph.points() {
        push_point_line(text, graph, source, lines, point)?;
        push_edge_lines(text, graph, point)?;
    }
    Ok(())
}

/// Appends the last line, for so many points and edges.
fn push_end_line(text: &mut Vec<u8>, points: u32, edges: u32) -> Result<(), AllocError>
    ensures { OnOk result (text.new.items ≡ text.old.items ++ line_of_words (codes "end" ∷ decimal points ∷ decimal edges ∷ []) ++ 10 ∷ []) }
{
    text.extend_from_slice(b"end ")?;
    push_decimal(text, u64::from(points))?;
    text.push(b' ')?;
    push_decimal(text, u64::from(edges))?;
    text.push(b'\n')?;
    Ok(())
}
