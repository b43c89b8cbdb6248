//! The labels of a function (C11 6.8.1).
ghost use Rattle.std.specs.Prelude.{◌≡◌, IfOk, OnOk, map};
ghost use Rattle.csub_rules.specs.Labels.{labels_of, labels_of_lines, past_names, stands_in, twice_fault};
ghost use Rattle.csub_tree.specs.Statements.{stmt_tree, stmts_of};

use csub_rules::{Fault, earlier, fault_if};
use csub_scopes::Counts;
use csub_tree::{Stmt, StmtKind};
use std::alloc::AllocError;

/// Whether a name stands among others.
#[tactic(auto, using(crate::proofs::Counted::any_counted))]
pub fn stands_in(names: &Counts, name: &[u8]) -> bool
    ensures { result ≡ stands_in name.now names.now }
{
    names.count(name) > 0
}

/// M2 of the labels of a statement, which count as seen then.
#[cycle(collect_labels)]
fn collect_labels(labels: &mut Counts, s: &Stmt) -> Result<Option<Fault>, AllocError>
    ensures fault { IfOk result (λ fault. fault ≡ twice_fault labels.old (labels_of (stmt_tree s.now))) }
    ensures labels { OnOk result (labels.new ≡ past_names labels.old (labels_of (stmt_tree s.now))) }
{
    match &s.kind {
        StmtKind::Block(lines) | StmtKind::Switch(_, lines) => {
            collect_from_lines(labels, lines.as_slice())
        }
        StmtKind::If(_, then, other) => {
            let first = collect_labels(labels, then)?;
            match other {
                None => Ok(first),
                Some(other) => {
                    let second = collect_labels(labels, other)?;
                    Ok(earlier(first, second))
                }
            }
        }
        StmtKind::While(_, body) | StmtKind::Do(body, _) => collect_labels(labels, body),
        StmtKind::For(first, _, _, body) => match first {
            None => collect_labels(labels, body),
            Some(first) => {
                let start = collect_labels(labels, first)?;
                let inner = collect_labels(labels, body)?;
                Ok(earlier(start, inner))
            }
        },
        StmtKind::Label(x, inner) => {
            let again = fault_if(stands_in(labels, x.text.bytes()), 2, x.span);
            labels.add(&x.text)?;
            let rest = collect_labels(labels, inner)?;
            Ok(earlier(again, rest))
        }
        _ => Ok(None),
    }
}

#[cycle(collect_labels)]
pub(crate) fn collect_from_lines(
    labels: &mut Counts,
    lines: &[Stmt],
) -> Result<Option<Fault>, AllocError>
    ensures fault { IfOk result (λ fault. fault ≡ twice_fault labels.old (labels_of_lines (stmts_of (map stmt_tree lines.now)))) }
    ensures labels { OnOk result (labels.new ≡ past_names labels.old (labels_of_lines (stmts_of (map stmt_tree lines.now)))) }
{
    let mut least = None;
    for line in lines {
        let fault = collect_labels(labels, line)?;
        least = earlier(least, fault);
    }
    Ok(least)
}
