//! The lines of points.
ghost use Rattle.std.specs.Prelude.{◌≡◌, ◌<◌, ◌++◌, ◌∷◌, [], OnOk, Some, codes, slice_get};
ghost use Rattle.std.specs.Fmt.{decimal};
ghost use Rattle.line_text.specs.Words.{line_of_words};
ghost use Rattle.csub_semantics.specs.Syntax.{ProgramTree};
ghost use Rattle.csub_semantics.specs.Flows.{PlacedNode, point_list};
ghost use Rattle.flow_graph.specs.Graph.{IsGraphOf, point_count};
ghost use Rattle.source_place.specs.Places.{place_text};
ghost use Rattle.source_place.specs.Lines.{IsTableOf};
ghost use Rattle.points_report.specs.PointTexts.{point_line, source_text};

use csub_text::Span;
use flow_graph::Graph;
use line_text::{cut_line, push_decimal};
use source_place::{LineTable, Place, push_place};
use std::alloc::AllocError;

/// So many bytes of a source are shown of a point at most.
const MOST_SHOWN: usize = 80;

/// Appends the line of the point with a number, by the source and its lines.
pub(crate) fn push_point_line(
    text: &mut Vec<u8>,
    graph: &Graph,
    source: &[u8],
    lines: &LineTable,
    point: u32,
) -> Result<(), AllocError>
    requires { point < point_count graph.now }
    ensures { (P : ProgramTree) (n : PlacedNode) → IsGraphOf graph.now P → IsTableOf source.now lines.now → slice_get (point_list P) point ≡ Some n → OnOk result
        (text.new.items ≡ text.old.items ++ point_line P source.now point n ++ 10 ∷ []) }
{
    let function = graph.name_of(graph.function_at(point));
    let span = graph.span_at(point);
    push_point_parts(
        text,
        point,
        function.bytes(),
        lines.place_of(span),
        source_text(source, span),
    )
}

/// Appends the line of these parts: a point's number, the name of its function, its place, and what the source has there.
fn push_point_parts(
    text: &mut Vec<u8>,
    point: u32,
    function: &[u8],
    place: Place,
    told: &[u8],
) -> Result<(), AllocError>
    ensures { OnOk result (text.new.items ≡ text.old.items ++ line_of_words
        (codes "point" ∷ decimal point ∷ function.now ∷ place_text place ∷ told.now ∷ []) ++ 10 ∷ []) }
{
    push_named_point(text, point, function)?;
    text.push(b' ')?;
    push_place(text, place)?;
    text.push(b' ')?;
    text.extend_from_slice(told)?;
    text.push(b'\n')?;
    Ok(())
}

/// Appends `point`, the number of a point and the name of its function.
fn push_named_point(text: &mut Vec<u8>, point: u32, function: &[u8]) -> Result<(), AllocError>
    ensures { OnOk result
        (text.new.items ≡ text.old.items ++ line_of_words (codes "point" ∷ decimal point ∷ function.now ∷ [])) }
{
    text.extend_from_slice(b"point ")?;
    push_decimal(text, u64::from(point))?;
    text.push(b' ')?;
    text.extend_from_slice(function)
}

/// What the source has from the first byte of a span on: the rest of its line, at most 80 bytes of it, without the white space at
/// their end.
fn source_text(source: &[u8], at: Span) -> &[u8]
    ensures { result.now ≡ source_text source.now at }
{
    let start = (at.start as usize).min(source.len());
    let rest = &source[start..];
    let count = MOST_SHOWN.min(rest.len());
    match cut_line(&rest[..count]) {
        Some(line) => line.bytes.trim_ascii_end(),
        None => b"",
    }
}
