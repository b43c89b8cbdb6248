//! The labels of a `switch` (C11 6.8.4.2).
ghost use Rattle.std.specs.Prelude.{◌≡◌, ◌∷◌, [], Some, IfOk, OnOk, option_map};
ghost use Rattle.std.specs.List.{list_any};
ghost use Rattle.std.specs.Ordering.{int_eq};
ghost use Rattle.csub_rules.specs.CaseLabels.{CaseLabel, a_value, again_fault, label_eq, label_of, switch_kind, the_default, with_label};
ghost use Rattle.csub_scopes.specs.Meanings.{scope_of};
ghost use Rattle.csub_tree.specs.Expressions.{expr_tree};
ghost use Rattle.csub_tree.specs.Statements.{stmt_tree};
ghost use Rattle.csub_bodies.specs.Switches.{inserted, label_at, seen_of};

use csub_check::sort::the_kind;
use csub_check::{Standing, check, constant};
use csub_rules::{Fault, fault_if, first_bytes};
use csub_scopes::Scope;
use csub_text::Span;
use csub_tree::{Expr, Stmt, StmtKind};
use csub_types::{IntKind, convert, promote};
use indexmap::IndexSet;
use std::alloc::{AllocError, Global};

/// A label: the value of a `case`, none for `default`; and where it stands.
#[derive(Clone, Copy)]
pub(crate) struct LabelAt {
    pub(crate) value: Option<i64>,
    pub(crate) span: Span,
}

/// The labels of a `switch` so far.
#[derive(Drop)]
pub(crate) struct Seen {
    values: IndexSet<i64>,
    has_default: bool,
}

/// The promoted kind of a switch's expression.
pub fn switch_kind(scope: &Scope, e: &Expr) -> IntKind
    ensures { result ≡ switch_kind (scope_of scope.now) (expr_tree e.now) }
{
    promote(the_kind(check(scope, Standing::Operand, e).sort))
}

/// The label that a line of a `switch` is.
pub(crate) fn label_of(kind: IntKind, scope: &Scope, line: &Stmt) -> Option<LabelAt>
    ensures { option_map label_at result ≡ label_of kind (scope_of scope.now) (stmt_tree line.now) }
{
    match &line.kind {
        StmtKind::Case(e) => {
            let value = constant(scope, e)?;
            Some(LabelAt {
                value: Some(convert(kind, value)),
                span: e.span,
            })
        }
        StmtKind::Default => Some(LabelAt {
            value: None,
            span: first_bytes(7, line.span),
        }),
        _ => None,
    }
}

impl Seen {
    /// No label.
    pub(crate) fn new(alloc: Global) -> Seen
        ensures { seen_of result ≡ [] }
    {
        Seen {
            values: IndexSet::new(alloc),
            has_default: false,
        }
    }
}

/// Adds a value, and tells whether it was there.
fn add(values: &mut IndexSet<i64>, value: i64) -> Result<bool, AllocError>
    ensures again { IfOk result (λ again. again ≡ list_any (int_eq value) values.old.keys) }
    ensures after { OnOk result (values.new.keys ≡ inserted values.old.keys value) }
{
    let (_, is_new) = values.insert_full(value)?;
    Ok(!is_new)
}

/// M18 of `default`, which counts as seen then.
fn note_default(seen: &mut Seen, at: Span) -> Option<Fault>
    ensures fault { result ≡ again_fault (seen_of seen.old) (Some (record { label = the_default; span = at })) }
    ensures after { (l : CaseLabel) → list_any (label_eq l) (seen_of seen.new) ≡ list_any (label_eq l) (the_default ∷ seen_of seen.old) }
{
    let again = seen.has_default;
    seen.has_default = true;
    fault_if(again, 18, at)
}

/// M18 of a case value, which counts as seen then.
fn note_value(seen: &mut Seen, value: i64, at: Span) -> Result<Option<Fault>, AllocError>
    ensures fault { IfOk result (λ fault. fault ≡ again_fault (seen_of seen.old) (Some (record { label = a_value value; span = at }))) }
    ensures after { OnOk result ((l : CaseLabel) → list_any (label_eq l) (seen_of seen.new) ≡ list_any (label_eq l) (a_value value ∷ seen_of seen.old)) }
{
    let again = add(&mut seen.values, value)?;
    Ok(fault_if(again, 18, at))
}

/// M18 of a label, which counts as seen then.
pub(crate) fn note(seen: &mut Seen, label: Option<LabelAt>) -> Result<Option<Fault>, AllocError>
    ensures fault { IfOk result (λ fault. fault ≡ again_fault (seen_of seen.old) (option_map label_at label)) }
    ensures after { OnOk result ((l : CaseLabel) → list_any (label_eq l) (seen_of seen.new) ≡ list_any (label_eq l) (with_label (seen_of seen.old) (option_map label_at label))) }
{
    match label {
        None => Ok(None),
        Some(label) => match label.value {
            None => Ok(note_default(seen, label.span)),
            Some(value) => note_value(seen, value, label.span),
        },
    }
}
