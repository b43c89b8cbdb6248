//! The lines of facts, and of the danger that they show.
ghost use Rattle.std.specs.Prelude.{ℕ, List, ◌≡◌, ◌<◌, ◌+◌, ◌^◌, ◌++◌, ◌∷◌, [], All, OnOk, Some, codes};
ghost use Rattle.std.specs.Fmt.{decimal};
ghost use Rattle.line_text.specs.Lines.{text_of_lines};
ghost use Rattle.line_text.specs.Words.{line_of_words};
ghost use Rattle.csub_objects.specs.Types.{Name};
ghost use Rattle.csub_semantics.specs.Points.{PointTree, exit_tree};
ghost use Rattle.csub_semantics.specs.Syntax.{ProgramTree};
ghost use Rattle.csub_semantics.specs.Flows.{Edge, flow_of};
ghost use Rattle.csub_semantics.specs.Numbers.{site, site_at};
ghost use Rattle.flow_graph.specs.Graph.{IsGraphOf, point_count};
ghost use Rattle.source_place.specs.Lines.{IsTableOf};
ghost use Rattle.explain_report.specs.WalkTexts.{exit_text};
ghost use Rattle.explain_report.specs.Explanations.{reason_words, fact_line, fact_lines, new_place, back_words, parting_line};
ghost use Rattle.explain_report.specs.Dangers.{IsEdgeWithin, IsTellable};

use crate::edge::push_exit;
use crate::shown::Shown;
use call_walk::{Fact, Why};
use csub_semantics::ExitLabel;
use flow_graph::Graph;
use line_text::push_decimal;
use source_place::{LineTable, push_place};
use std::alloc::AllocError;

/// Appends the line of each fact.
pub fn push_fact_lines(text: &mut Vec<u8>, old: &Graph, facts: &[Fact]) -> Result<(), AllocError>
    requires { All (IsTellable old.now) facts.now }
    ensures { (P : ProgramTree) → IsGraphOf old.now P → OnOk result (text.new.items ≡ text.old.items ++ text_of_lines (fact_lines P 0 facts.now)) }
{
    for (place, fact) in facts.iter().enumerate() {
        push_fact_line(text, old, place as u64, *fact)?;
    }
    Ok(())
}

/// Appends the line of the fact at a place.
fn push_fact_line(text: &mut Vec<u8>, old: &Graph, place: u64, fact: Fact) -> Result<(), AllocError>
    requires place { place + 1 < 2 ^ 64 }
    requires tellable { IsTellable old.now fact }
    ensures { (P : ProgramTree) → IsGraphOf old.now P → OnOk result (text.new.items ≡ text.old.items ++ fact_line P place fact ++ 10 ∷ []) }
{
    push_pair(text, place, old.name_of(fact.function).bytes(), fact)?;
    text.push(b' ')?;
    push_reason(text, old, fact.why)?;
    text.push(b'\n')?;
    Ok(())
}

/// Appends the number of the fact at a place, the name of its function, and the numbers of both points.
fn push_pair(text: &mut Vec<u8>, place: u64, function: &[u8], fact: Fact) -> Result<(), AllocError>
    requires { place + 1 < 2 ^ 64 }
    ensures { OnOk result (text.new.items ≡ text.old.items ++ line_of_words (decimal (place + 1) ∷ function.now ∷ decimal fact.old ∷ decimal fact.new ∷ [])) }
{
    push_decimal(text, place + 1)?;
    text.push(b' ')?;
    text.extend_from_slice(function)?;
    text.push(b' ')?;
    push_decimal(text, u64::from(fact.old))?;
    text.push(b' ')?;
    push_decimal(text, u64::from(fact.new))
}

/// Appends a reason.
fn push_reason(text: &mut Vec<u8>, old: &Graph, why: Why) -> Result<(), AllocError>
    requires { IsEdgeWithin old.now why }
    ensures { (P : ProgramTree) → IsGraphOf old.now P → OnOk result (text.new.items ≡ text.old.items ++ line_of_words (reason_words P why)) }
{
    match why {
        Why::Start => text.extend_from_slice(b"start"),
        Why::Step(from, edge) => push_step(text, from, old.edge_at(edge).exit),
        Why::Call(from) => push_call(text, from),
        Why::Over(from, back) => push_over(text, from, back),
    }
}

/// Appends the reason of a step.
fn push_step(text: &mut Vec<u8>, from: u32, exit: &ExitLabel) -> Result<(), AllocError>
    ensures { OnOk result (text.new.items ≡ text.old.items ++ line_of_words (codes "step" ∷ decimal (from + 1) ∷ exit_text (exit_tree exit.now) ∷ [])) }
{
    text.extend_from_slice(b"step ")?;
    push_decimal(text, u64::from(from) + 1)?;
    text.push(b' ')?;
    push_exit(text, exit)
}

/// Appends the reason of a call.
fn push_call(text: &mut Vec<u8>, from: u32) -> Result<(), AllocError>
    ensures { OnOk result (text.new.items ≡ text.old.items ++ line_of_words (codes "call" ∷ decimal (from + 1) ∷ [])) }
{
    text.extend_from_slice(b"call ")?;
    push_decimal(text, u64::from(from) + 1)
}

/// Appends the reason of passing over a call.
fn push_over(text: &mut Vec<u8>, from: u32, back: u32) -> Result<(), AllocError>
    ensures { OnOk result (text.new.items ≡ text.old.items ++ line_of_words (codes "over" ∷ decimal (from + 1) ∷ decimal (back + 1) ∷ [])) }
{
    text.extend_from_slice(b"over ")?;
    push_decimal(text, u64::from(from) + 1)?;
    text.push(b' ')?;
    push_decimal(text, u64::from(back) + 1)
}

/// Appends the line of the danger that facts show, by the new point of the one of the edge's source, and by the lines of the new
/// source.
pub fn push_parting_line(
    text: &mut Vec<u8>,
    new: &Graph,
    lines: &LineTable,
    shown: Shown,
    point: u32,
    exit: &ExitLabel,
) -> Result<(), AllocError>
    requires { point < point_count new.now }
    ensures { (P' : ProgramTree) (source' : List ℕ) (edge : Edge) (other : PointTree) → IsGraphOf new.now P' → IsTableOf source' lines.now → exit_tree exit.now ≡ edge.exit
        → site_at P' point ≡ Some (site edge.function other)
        → OnOk result (text.new.items ≡ text.old.items ++ parting_line P' source' edge shown.place shown.back other ++ 10 ∷ []) }
{
    push_shown(text, shown)?;
    text.push(b' ')?;
    push_exit(text, exit)?;
    text.push(b' ')?;
    push_new_place(text, new, lines, point, exit)?;
    text.push(b'\n')?;
    Ok(())
}

/// Appends `danger` and the numbers of the facts that show it.
fn push_shown(text: &mut Vec<u8>, shown: Shown) -> Result<(), AllocError>
    ensures { OnOk result (text.new.items ≡ text.old.items ++ line_of_words (codes "danger" ∷ decimal (shown.place + 1) ∷ back_words shown.back)) }
{
    text.extend_from_slice(b"danger ")?;
    push_decimal(text, u64::from(shown.place) + 1)?;
    match shown.back {
        Some(back) => {
            text.push(b' ')?;
            push_decimal(text, u64::from(back) + 1)
        }
        None => Ok(()),
    }
}

/// Appends the place to which a way out leads from a new point, or `none`.
fn push_new_place(
    text: &mut Vec<u8>,
    new: &Graph,
    lines: &LineTable,
    point: u32,
    exit: &ExitLabel,
) -> Result<(), AllocError>
    requires { point < point_count new.now }
    ensures { (P' : ProgramTree) (source' : List ℕ) (f : Name) (other : PointTree) → IsGraphOf new.now P' → IsTableOf source' lines.now → site_at P' point ≡ Some (site f other)
        → OnOk result (text.new.items ≡ text.old.items ++ new_place P' source' f ((flow_of P').succ f other (exit_tree exit.now))) }
{
    match new.follow(point, exit) {
        Some(next) => push_place(text, lines.place_of(new.span_at(next))),
        None => text.extend_from_slice(b"none"),
    }
}
