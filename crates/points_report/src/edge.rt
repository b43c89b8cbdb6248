//! The lines of edges.
ghost use Rattle.std.specs.Prelude.{◌≡◌, ◌<◌, ◌++◌, ◌∷◌, [], OnOk, Some, codes, slice_get};
ghost use Rattle.std.specs.Fmt.{decimal};
ghost use Rattle.line_text.specs.Lines.{text_of_lines};
ghost use Rattle.line_text.specs.Words.{line_of_words};
ghost use Rattle.csub_semantics.specs.Points.{exit_tree};
ghost use Rattle.csub_semantics.specs.Syntax.{ProgramTree};
ghost use Rattle.csub_semantics.specs.Flows.{PlacedNode, point_list, Edge, edges_from};
ghost use Rattle.csub_semantics.specs.Numbers.{edge_at};
ghost use Rattle.flow_graph.specs.Graph.{IsGraphOf, point_count, edge_count};
ghost use Rattle.explain_report.specs.WalkTexts.{exit_text};
ghost use Rattle.points_report.specs.PointTexts.{edge_line, edge_lines, first_edge};

use csub_semantics::ExitLabel;
use explain_report::push_exit;
use flow_graph::Graph;
use line_text::push_decimal;
use std::alloc::AllocError;

/// Appends the line of each edge that leaves the point with a number.
pub(crate) fn push_edge_lines(
    text: &mut Vec<u8>,
    graph: &Graph,
    point: u32,
) -> Result<(), AllocError>
    requires { point < point_count graph.now }
    ensures { (P : ProgramTree) (n : PlacedNode) → IsGraphOf graph.now P → slice_get (point_list P) point ≡ Some n → OnOk result
        (text.new.items ≡ text.old.items ++ text_of_lines (edge_lines P point (first_edge P point) (edges_from n))) }
{
    for edge in graph.edges_of(point) {
        push_edge_line(text, graph, point, edge)?;
    }
    Ok(())
}

/// Appends the line of the edge with a number, which leaves the point with a number.
fn push_edge_line(
    text: &mut Vec<u8>,
    graph: &Graph,
    point: u32,
    edge: u32,
) -> Result<(), AllocError>
    requires { edge < edge_count graph.now }
    ensures { (P : ProgramTree) (e : Edge) → IsGraphOf graph.now P → edge_at P edge ≡ Some e → OnOk result
        (text.new.items ≡ text.old.items ++ edge_line P point edge e ++ 10 ∷ []) }
{
    let ends = graph.edge_at(edge);
    push_edge_parts(text, point, edge, ends.exit, ends.to)
}

/// Appends the line of these parts: an edge's number, that of the point that it leaves, its way out, and the number of the point
/// to which it leads.
fn push_edge_parts(
    text: &mut Vec<u8>,
    point: u32,
    edge: u32,
    exit: &ExitLabel,
    to: u32,
) -> Result<(), AllocError>
    ensures { OnOk result (text.new.items ≡ text.old.items ++ line_of_words
        (codes "edge" ∷ decimal edge ∷ decimal point ∷ exit_text (exit_tree exit.now) ∷ decimal to ∷ []) ++ 10 ∷ []) }
{
    push_numbers(text, point, edge)?;
    text.push(b' ')?;
    push_way(text, exit, to)?;
    text.push(b'\n')?;
    Ok(())
}

/// Appends `edge`, the number of an edge and that of the point that it leaves.
fn push_numbers(text: &mut Vec<u8>, point: u32, edge: u32) -> Result<(), AllocError>
    ensures { OnOk result
        (text.new.items ≡ text.old.items ++ line_of_words (codes "edge" ∷ decimal edge ∷ decimal point ∷ [])) }
{
    text.extend_from_slice(b"edge ")?;
    push_decimal(text, u64::from(edge))?;
    text.push(b' ')?;
    push_decimal(text, u64::from(point))
}

/// Appends a way out, and the number of the point to which it leads.
fn push_way(text: &mut Vec<u8>, exit: &ExitLabel, to: u32) -> Result<(), AllocError>
    ensures { OnOk result
        (text.new.items ≡ text.old.items ++ line_of_words (exit_text (exit_tree exit.now) ∷ decimal to ∷ [])) }
{
    push_exit(text, exit)?;
    text.push(b' ')?;
    push_decimal(text, u64::from(to))
}
