//! Statements (C11 6.8).
ghost use Rattle.std.specs.Prelude.{◌≡◌, [], IfOk, OnOk, map, option_map};
ghost use Rattle.csub_rules.specs.CaseLabels.{labels_fault, switch_kind as the_switch_kind};
ghost use Rattle.csub_rules.specs.Faults.{◌or_earlier◌};
ghost use Rattle.csub_rules.specs.Here.{entering, is_reserved, leaving};
ghost use Rattle.csub_rules.specs.Past.{past, past_lines, past_perhaps};
ghost use Rattle.csub_rules.specs.StmtFaults.{in_switch as the_switch, lines_fault, part_fault, perhaps_fault, return_fault, stmt_fault};
ghost use Rattle.csub_rules.specs.Uses.{as_number, use_fault};
ghost use Rattle.csub_scopes.specs.Meanings.{scope_of};
ghost use Rattle.csub_tree.specs.Expressions.{expr_tree};
ghost use Rattle.csub_tree.specs.Statements.{perhaps_of, stmt_tree, stmts_of};
ghost use Rattle.csub_check.specs.Seen.{the_use};
ghost use Rattle.csub_bodies.specs.Views.{here_of, the_surroundings};

use crate::here::{Here, enter, leave};
use crate::local::check_declaration;
use crate::surroundings::{Surroundings, in_first_part, in_loop, in_switch, is_label};
use crate::switch::{Seen, label_of, note, switch_kind};
use csub_check::{Use, check_use};
use csub_rules::{Fault, earlier, fault_if, first_bytes, is_reserved};
use csub_scopes::Scope;
use csub_text::Span;
use csub_tree::{Expr, Stmt, StmtKind};
use csub_types::IntKind;
use std::alloc::{AllocError, Global};

/// A part of a `for` that may be left out.
fn check_part(scope: &Scope, usage: Use, e: &Option<Expr>) -> Option<Fault>
    ensures { result ≡ part_fault (scope_of scope.now) (the_use usage) (option_map expr_tree e.now) }
{
    check_use(scope, usage, e.as_ref()?)
}

/// `return`, with M15.
fn check_return(around: Surroundings, scope: &Scope, e: &Option<Expr>, at: Span) -> Option<Fault>
    ensures { result ≡ return_fault (the_surroundings around.entry) (scope_of scope.now) (option_map expr_tree e.now) at }
{
    match e {
        None => fault_if(around.result.is_some(), 15, first_bytes(6, at)),
        Some(e) => earlier(
            fault_if(around.result.is_none(), 15, first_bytes(6, at)),
            check_use(scope, Use::Number, e),
        ),
    }
}

/// The first rule that a statement breaks. What it declares is declared then, and its blocks are left. An `Err` is want of
/// memory.
#[cycle(check_statement)]
pub fn check_statement(
    alloc: Global,
    here: &mut Here,
    around: Surroundings,
    s: &Stmt,
) -> Result<Option<Fault>, AllocError>
    ensures fault { IfOk result (λ fault. fault ≡ stmt_fault (the_surroundings around.entry) (here_of here.old) (stmt_tree s.now)) }
    ensures past { OnOk result (here_of here.new ≡ past (here_of here.old) (stmt_tree s.now)) }
{
    match &s.kind {
        StmtKind::Declare(d) => check_declaration(alloc, here, d),
        StmtKind::Eval(e) => Ok(check_use(&here.scope, around.statement, e)),
        StmtKind::Empty => Ok(None),
        StmtKind::Block(lines) => check_block(alloc, here, around, lines.as_slice()),
        StmtKind::If(e, then, other) => {
            let test = check_use(&here.scope, Use::Number, e);
            let first = check_statement(alloc, here, around, then)?;
            let second = check_perhaps(alloc, here, around, other)?;
            Ok(earlier(earlier(test, first), second))
        }
        StmtKind::While(e, body) | StmtKind::Do(body, e) => {
            let test = check_use(&here.scope, Use::Number, e);
            let inner = check_statement(alloc, here, in_loop(around), body)?;
            Ok(earlier(test, inner))
        }
        StmtKind::For(first, e, third, body) => {
            let outer = enter(here)?;
            let start = check_perhaps(alloc, here, in_first_part(around), first)?;
            let test = check_part(&here.scope, Use::Number, e);
            let step = check_part(&here.scope, Use::Part, third);
            let inner = check_statement(alloc, here, in_loop(around), body)?;
            leave(here, outer);
            Ok(earlier(earlier(earlier(start, test), step), inner))
        }
        StmtKind::Switch(e, lines) => check_switch(alloc, here, around, lines.as_slice(), e),
        StmtKind::Case(e) => Ok(check_use(&here.scope, Use::Constant, e)),
        StmtKind::Default => Ok(None),
        StmtKind::Break => Ok(fault_if(!around.can_break, 16, first_bytes(5, s.span))),
        StmtKind::Continue => Ok(fault_if(!around.can_continue, 16, first_bytes(8, s.span))),
        StmtKind::Goto(x) => Ok(fault_if(!is_label(around, x.text.bytes()), 17, x.span)),
        StmtKind::Label(x, inner) => {
            let reserved = fault_if(is_reserved(x.text.bytes()), 3, x.span);
            let inner = check_statement(alloc, here, around, inner)?;
            Ok(earlier(reserved, inner))
        }
        StmtKind::Return(e) => Ok(check_return(around, &here.scope, e, s.span)),
    }
}

/// A statement that may be left out: that behind `else`, or the first part of a `for`; see [`check_statement`].
#[cycle(check_statement)]
fn check_perhaps(
    alloc: Global,
    here: &mut Here,
    around: Surroundings,
    s: &Option<Box<Stmt>>,
) -> Result<Option<Fault>, AllocError>
    ensures fault { IfOk result (λ fault. fault ≡ perhaps_fault (the_surroundings around.entry) (here_of here.old) (perhaps_of (option_map (λ s. stmt_tree s.value) s.now))) }
    ensures past { OnOk result (here_of here.new ≡ past_perhaps (here_of here.old) (perhaps_of (option_map (λ s. stmt_tree s.value) s.now))) }
{
    match s {
        None => Ok(None),
        Some(s) => check_statement(alloc, here, around, s),
    }
}

/// A block of these lines; see [`check_statement`].
#[cycle(check_statement)]
fn check_block(
    alloc: Global,
    here: &mut Here,
    around: Surroundings,
    lines: &[Stmt],
) -> Result<Option<Fault>, AllocError>
    ensures fault { IfOk result (λ fault. fault ≡ lines_fault (the_surroundings around.entry) (entering (here_of here.old)) (stmts_of (map stmt_tree lines.now))) }
    ensures past { OnOk result (here_of here.new ≡ leaving (here_of here.old) (past_lines (entering (here_of here.old)) (stmts_of (map stmt_tree lines.now)))) }
{
    let outer = enter(here)?;
    let fault = check_lines(alloc, here, around, lines)?;
    leave(here, outer);
    Ok(fault)
}

/// A `switch`, whose lines are a block (C11 6.8.4p3); see [`check_statement`].
#[cycle(check_statement)]
fn check_switch(
    alloc: Global,
    here: &mut Here,
    around: Surroundings,
    lines: &[Stmt],
    e: &Expr,
) -> Result<Option<Fault>, AllocError>
    ensures fault { IfOk result (λ fault. fault ≡ (use_fault (scope_of here.old.scope) as_number (expr_tree e.now) or_earlier lines_fault (the_switch (the_surroundings around.entry)) (entering (here_of here.old)) (stmts_of (map stmt_tree lines.now)) or_earlier labels_fault (the_switch_kind (scope_of here.old.scope) (expr_tree e.now)) (entering (here_of here.old)) [] (stmts_of (map stmt_tree lines.now)))) }
    ensures past { OnOk result (here_of here.new ≡ leaving (here_of here.old) (past_lines (entering (here_of here.old)) (stmts_of (map stmt_tree lines.now)))) }
{
    let test = check_use(&here.scope, Use::Number, e);
    let kind = switch_kind(&here.scope, e);
    let outer = enter(here)?;
    let found = check_cases(alloc, here, in_switch(around), kind, lines)?;
    leave(here, outer);
    Ok(earlier(earlier(test, found.lines), found.labels))
}

/// Lines, each of which sees what those before it declare.
#[cycle(check_statement)]
pub(crate) fn check_lines(
    alloc: Global,
    here: &mut Here,
    around: Surroundings,
    lines: &[Stmt],
) -> Result<Option<Fault>, AllocError>
    ensures fault { IfOk result (λ fault. fault ≡ lines_fault (the_surroundings around.entry) (here_of here.old) (stmts_of (map stmt_tree lines.now))) }
    ensures past { OnOk result (here_of here.new ≡ past_lines (here_of here.old) (stmts_of (map stmt_tree lines.now))) }
{
    let mut least = None;
    for line in lines {
        let fault = check_statement(alloc, here, around, line)?;
        least = earlier(least, fault);
    }
    Ok(least)
}

/// What is found of the lines of a `switch`.
#[derive(Clone, Copy)]
struct Cases {
    /// The first rule that one of them breaks.
    lines: Option<Fault>,
    /// The first label that stands twice.
    labels: Option<Fault>,
}

/// The lines of a `switch` with an expression of this kind.
#[cycle(check_statement)]
fn check_cases(
    alloc: Global,
    here: &mut Here,
    around: Surroundings,
    kind: IntKind,
    lines: &[Stmt],
) -> Result<Cases, AllocError>
    ensures lines { IfOk result (λ found. found.lines ≡ lines_fault (the_surroundings around.entry) (here_of here.old) (stmts_of (map stmt_tree lines.now))) }
    ensures labels { IfOk result (λ found. found.labels ≡ labels_fault kind (here_of here.old) [] (stmts_of (map stmt_tree lines.now))) }
    ensures past { OnOk result (here_of here.new ≡ past_lines (here_of here.old) (stmts_of (map stmt_tree lines.now))) }
{
    let mut seen = Seen::new(alloc);
    let mut found = Cases {
        lines: None,
        labels: None,
    };
    for line in lines {
        let again = note(&mut seen, label_of(kind, &here.scope, line))?;
        let fault = check_statement(alloc, here, around, line)?;
        found = Cases {
            lines: earlier(found.lines, fault),
            labels: earlier(found.labels, again),
        };
    }
    Ok(found)
}
