//! The `switch`: its kind, and the labels `case` and `default` among its lines.
ghost use Rattle.std.specs.Prelude.{◌≡◌, ◌↔◌, ◌≤◌, ◌<◌, AllPairs, IsTrue, length, map};
ghost use Rattle.std.specs.List.{AllWithin};
ghost use Rattle.std.specs.Option.{option_map};
ghost use Rattle.csub_semantics.specs.declared.function.RStmt.{RStmt};
ghost use Rattle.csub_semantics.specs.Labels.{label_tree};
ghost use Rattle.csub_semantics.specs.Syntax.{part_tree, stmt_tree, stmts_of};
ghost use Rattle.csub_semantics.specs.Successors.{case_of, is_default};
ghost use Rattle.csub_validity.specs.Valid.{IsCase, AreCases, default_count, switch_kind};
ghost use Rattle.csub_decisions.specs.ProgramChecks.{AreOtherCases, own_kind};

use crate::expressions::{is_of, kind_of};
use crate::valid::statements::has_few_stmts;
use csub_limits::counts::case_of;
use csub_semantics::{Label, RPart, RStmt};
use csub_types::{IntKind, promote};

/// The kind of a `switch` of this expression (C11 6.8.4.2p5).
pub(crate) fn switch_kind(value: &RPart) -> IntKind
    ensures { result ≡ switch_kind (part_tree value.now) }
{
    own_kind(&value.main)
}

/// The same by the part's own point.
fn own_kind(main: &Option<Label>) -> IntKind
    ensures { result ≡ own_kind (option_map label_tree main.now) }
{
    match main {
        Some(Label::Switch(value)) => promote(kind_of(value)),
        _ => IntKind::Int,
    }
}

/// Whether a value may be a case's in a `switch` of the kind, if a `case` may stand there at all.
pub(crate) fn is_case(kind: Option<IntKind>, value: i64) -> bool
    ensures { IsTrue result ↔ IsCase kind value }
{
    match kind {
        None => false,
        Some(kind) => is_of(kind, value),
    }
}

/// Whether the lines of a `switch` are at most 1,048,576, with no two cases of one value and at most one `default`. This
/// takes a comparison for each two lines.
pub(crate) fn are_cases(stmts: &[RStmt]) -> bool
    ensures { IsTrue result ↔ AreCases (stmts_of (map stmt_tree stmts.now)) }
{
    has_few_stmts(stmts) && are_apart(stmts)
}

fn are_apart(stmts: &[RStmt]) -> bool
    ensures { IsTrue result ↔ (AllPairs (λ (a b : RStmt). AreOtherCases (case_of (stmt_tree a)) (case_of (stmt_tree b))) stmts.now × (default_count (stmts_of (map stmt_tree stmts.now)) ≤ 1)) }
{
    cases_differ(stmts) && default_count(stmts) <= 1
}

/// Whether no two lines are cases of one value.
fn cases_differ(stmts: &[RStmt]) -> bool
    ensures { IsTrue result ↔ AllPairs (λ (a b : RStmt). AreOtherCases (case_of (stmt_tree a)) (case_of (stmt_tree b))) stmts.now }
{
    for i in 0..stmts.len() {
        let case = case_of(&stmts[i]);
        if !is_new(stmts, i, case) {
            return false;
        }
    }
    true
}

/// Whether none of the first `count` lines has the value of a case.
fn is_new(stmts: &[RStmt], count: usize, case: Option<i64>) -> bool
    requires { count ≤ length stmts.now }
    ensures { IsTrue result ↔ AllWithin (λ (s : RStmt). AreOtherCases (case_of (stmt_tree s)) case) stmts.now 0 count }
{
    for i in 0..count {
        if !are_other(case_of(&stmts[i]), case) {
            return false;
        }
    }
    true
}

/// Whether two lines with these values, if they are cases, are not cases of one value.
fn are_other(a: Option<i64>, b: Option<i64>) -> bool
    ensures { IsTrue result ↔ AreOtherCases a b }
{
    match (a, b) {
        (Some(a), Some(b)) => a != b,
        _ => true,
    }
}

/// How many lines are a `default`.
fn default_count(stmts: &[RStmt]) -> usize
    ensures { result ≡ default_count (stmts_of (map stmt_tree stmts.now)) }
{
    let mut count = 0;
    for stmt in stmts {
        if is_default(stmt) {
            count += 1;
        }
    }
    count
}

fn is_default(stmt: &RStmt) -> bool
    ensures { result ≡ is_default (stmt_tree stmt.now) }
{
    match stmt {
        RStmt::Default => true,
        _ => false,
    }
}
