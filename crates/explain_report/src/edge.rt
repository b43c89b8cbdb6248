//! The line of one edge.
ghost use Rattle.std.specs.Prelude.{ℕ, List, ◌≡◌, ◌<◌, ◌++◌, ◌∷◌, [], OnOk, Some, codes};
ghost use Rattle.std.specs.Fmt.{decimal};
ghost use Rattle.line_text.specs.Words.{line_of_words};
ghost use Rattle.csub_semantics.specs.Points.{exit_tree};
ghost use Rattle.csub_semantics.specs.Syntax.{ProgramTree};
ghost use Rattle.csub_semantics.specs.Flows.{Edge};
ghost use Rattle.csub_semantics.specs.Numbers.{edge_at};
ghost use Rattle.flow_graph.specs.Graph.{IsGraphOf, edge_count};
ghost use Rattle.source_place.specs.Places.{place_text};
ghost use Rattle.source_place.specs.Lines.{IsTableOf};
ghost use Rattle.explain_report.specs.WalkTexts.{exit_text, edge_line};

use csub_semantics::ExitLabel;
use flow_graph::Graph;
use line_text::{push_decimal, push_signed};
use source_place::{LineTable, Place, push_place};
use std::alloc::AllocError;

/// Appends the line of the edge with a number, by the lines of the old source.
pub fn push_edge_line(
    text: &mut Vec<u8>,
    old: &Graph,
    lines: &LineTable,
    edge: u32,
) -> Result<(), AllocError>
    requires { edge < edge_count old.now }
    ensures { (P : ProgramTree) (source : List ℕ) (e : Edge) → IsGraphOf old.now P → IsTableOf source lines.now → edge_at P edge ≡ Some e → OnOk result
        (text.new.items ≡ text.old.items ++ edge_line P source edge e ++ 10 ∷ []) }
{
    let ends = old.edge_at(edge);
    let function = old.name_of(old.function_at(ends.from));
    let place = lines.place_of(old.span_at(ends.from));
    push_parts(text, edge, function.bytes(), place, ends.exit)
}

/// Appends the line of these parts: an edge's number, the name of its function, its place and its way out.
fn push_parts(
    text: &mut Vec<u8>,
    edge: u32,
    function: &[u8],
    place: Place,
    exit: &ExitLabel,
) -> Result<(), AllocError>
    ensures { OnOk result (text.new.items ≡ text.old.items ++ line_of_words
        (codes "edge" ∷ decimal edge ∷ function.now ∷ place_text place ∷ exit_text (exit_tree exit.now) ∷ []) ++ 10 ∷ []) }
{
    push_named_edge(text, edge, function)?;
    text.push(b' ')?;
    push_place(text, place)?;
    text.push(b' ')?;
    push_exit(text, exit)?;
    text.push(b'\n')?;
    Ok(())
}

/// Appends `edge`, the number of an edge and the name of its function.
fn push_named_edge(text: &mut Vec<u8>, edge: u32, function: &[u8]) -> Result<(), AllocError>
    ensures { OnOk result
        (text.new.items ≡ text.old.items ++ line_of_words (codes "edge" ∷ decimal edge ∷ function.now ∷ [])) }
{
    text.extend_from_slice(b"edge ")?;
    push_decimal(text, u64::from(edge))?;
    text.push(b' ')?;
    text.extend_from_slice(function)
}

/// Appends a way out.
pub fn push_exit(text: &mut Vec<u8>, exit: &ExitLabel) -> Result<(), AllocError>
    ensures { OnOk result (text.new.items ≡ text.old.items ++ exit_text (exit_tree exit.now)) }
{
    match exit {
        ExitLabel::Next => text.extend_from_slice(b"next"),
        ExitLabel::True => text.extend_from_slice(b"true"),
        ExitLabel::False => text.extend_from_slice(b"false"),
        ExitLabel::Case(value) => {
            text.extend_from_slice(b"case ")?;
            push_signed(text, *value)
        }
        ExitLabel::Default(_) => text.extend_from_slice(b"default"),
    }
}
