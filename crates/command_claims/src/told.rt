//! The line of a verdict.
ghost use Rattle.std.specs.Prelude.{◌≡◌, ◌++◌, ◌∷◌, [], IfOk, OnOk};
ghost use Rattle.line_text.specs.Lines.{text_of_lines};
ghost use Rattle.csub_semantics.specs.Points.{exit_tree};
ghost use Rattle.csub_semantics.specs.Syntax.{ProgramTree};
ghost use Rattle.flow_graph.specs.Graph.{IsGraphOf};
ghost use Rattle.explain_report.specs.WalkTexts.{exit_text};
ghost use Rattle.command_claims.specs.Checked.{closed_line, open_line, verdict_line};
ghost use Rattle.command_claims.specs.Within.{HasEdgeWithin};

use csub_semantics::ExitLabel;
use explain_report::push_exit;
use flow_graph::Graph;
use line_text::push_decimal;
use std::alloc::{AllocError, Global};
use walk_cert::{Certificate, Pair, Verdict};

/// The text of a verdict on a certificate, by the graph of the old program. An `Err` is want of memory.
pub(crate) fn verdict_text(
    alloc: Global,
    old: &Graph,
    certificate: &Certificate,
    verdict: Verdict,
) -> Result<Vec<u8>, AllocError>
    requires { HasEdgeWithin old.now verdict }
    ensures { (P : ProgramTree) → IsGraphOf old.now P → IfOk result (λ text. text.items ≡ text_of_lines (verdict_line P certificate.now verdict ∷ [])) }
{
    let mut text = Vec::new(alloc);
    push_verdict(&mut text, old, certificate, verdict)?;
    text.push(b'\n')?;
    Ok(text)
}

/// Appends the line of a verdict on a certificate, without its newline.
fn push_verdict(
    text: &mut Vec<u8>,
    old: &Graph,
    certificate: &Certificate,
    verdict: Verdict,
) -> Result<(), AllocError>
    requires { HasEdgeWithin old.now verdict }
    ensures { (P : ProgramTree) → IsGraphOf old.now P → OnOk result (text.new.items ≡ text.old.items ++ verdict_line P certificate.now verdict) }
{
    match verdict {
        Verdict::Closed => push_closed(text, certificate),
        Verdict::NoStart => text.extend_from_slice(b"open start"),
        Verdict::Label(pair) => push_open(text, pair, b"label"),
        Verdict::Callee(pair) => push_open(text, pair, b"call"),
        Verdict::Exit(pair, edge) => push_way_out(text, pair, old.edge_at(edge).exit),
    }
}

/// Appends that the claim of a certificate is closed.
fn push_closed(text: &mut Vec<u8>, certificate: &Certificate) -> Result<(), AllocError>
    ensures { OnOk result (text.new.items ≡ text.old.items ++ closed_line certificate.now) }
{
    text.extend_from_slice(b"closed pairs ")?;
    push_decimal(text, certificate.pairs().len() as u64)?;
    text.extend_from_slice(b" dangerous ")?;
    push_decimal(text, u64::from(certificate.danger().count()))
}

/// Appends that the claim is open at a pair, and what breaks it there.
fn push_open(text: &mut Vec<u8>, pair: Pair, what: &[u8]) -> Result<(), AllocError>
    ensures { OnOk result (text.new.items ≡ text.old.items ++ open_line pair what.now) }
{
    push_pair(text, pair)?;
    text.extend_from_slice(what)
}

/// Appends that the claim is open at a pair, since a way out leads out of it.
fn push_way_out(text: &mut Vec<u8>, pair: Pair, exit: &ExitLabel) -> Result<(), AllocError>
    ensures { OnOk result (text.new.items ≡ text.old.items ++ open_line pair (exit_text (exit_tree exit.now))) }
{
    push_pair(text, pair)?;
    push_exit(text, exit)
}

/// Appends that the claim is open at a pair, up to what breaks it there.
fn push_pair(text: &mut Vec<u8>, pair: Pair) -> Result<(), AllocError>
    ensures { OnOk result (text.new.items ≡ text.old.items ++ open_line pair []) }
{
    text.extend_from_slice(b"open pair ")?;
    push_decimal(text, u64::from(pair.old))?;
    text.push(b' ')?;
    push_decimal(text, u64::from(pair.new))?;
    text.push(b' ')?;
    Ok(())
}
