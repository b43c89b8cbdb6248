//! Statements (C11 6.8).
ghost use Rattle.std.specs.Prelude.{◌≡◌, ◌++◌, IfOk, OnOk, map, option_map};
ghost use Rattle.csub_tree.specs.Statements.{perhaps_of, stmt_tree, stmts_of};
ghost use Rattle.csub_tree.specs.Expressions.{expr_tree};
ghost use Rattle.csub_scopes.specs.Meanings.{scope_of};
ghost use Rattle.csub_types.specs.declared.kind.IntKind.TheVariants.{Int};
ghost use Rattle.csub_semantics.specs.Syntax.{block, do_loop, local_tree, part_tree, switch_on, while_loop};
ghost use Rattle.csub_semantics.specs.Syntax.{stmt_tree as made_tree, stmts_of as made_lines};
ghost use Rattle.csub_rules.specs.BrokenUse.{FineUse};
ghost use Rattle.csub_rules.specs.CaseLabels.{switch_kind};
ghost use Rattle.csub_rules.specs.Here.{entering, leaving};
ghost use Rattle.csub_rules.specs.Past.{past, past_lines, past_perhaps};
ghost use Rattle.csub_rules.specs.Uses.{as_number};
ghost use Rattle.csub_bodies.specs.Views.{here_of};
ghost use Rattle.csub_resolution.specs.Lines.{first_parts, line, lines as lines_of, locals as locals_of, locals_lines, locals_perhaps, other_line};
ghost use Rattle.csub_resolution.specs.Lines.{switch_part, test_part};
ghost use Rattle.csub_nodes.specs.Nodes.{else_of};
ghost use Rattle.csub_statements.specs.Resolvable.{Resolvable, ResolvableLines, ResolvablePerhaps};

use crate::block::{block_lines, switch_lines};
use crate::node::{declared_node, eval_node, for_head, return_node};
use csub_bodies::{Here, enter, leave, switch_kind};
use csub_lines::part::{switch_part, test_part};
use csub_lower::{Definitions, Known};
use csub_nodes::node::{
    block_node, break_node, case_node, continue_node, default_node, do_node, for_node, goto_node,
    if_node, mark_node, own_parts, parts_node, push_line, switch_node, while_node,
};
use csub_semantics::{LocalVar, RPart, RStmt};
use csub_tree::{Expr, Stmt, StmtKind};
use csub_types::IntKind;
use std::alloc::{AllocError, Global};

/// The function that statements stand in.
#[derive(Clone, Copy)]
pub struct Within<'d> {
    /// The functions that the source defines.
    pub definitions: &'d Definitions,
    /// The kind of its result; none where it gives nothing.
    pub result: Option<IntKind>,
}

/// What is known where a statement stands.
fn known<'h>(here: &'h Here, within: Within<'h>) -> Known<'h>
    ensures scope { result.scope.now ≡ here.now.scope }
    ensures definitions { result.definitions.now ≡ within.entry.definitions.now }
{
    Known {
        scope: &here.scope,
        definitions: within.definitions,
    }
}

/// What a statement that breaks no rule stands for, among the lines of a `switch` of a kind (`int` for other lines, in which a
/// `case` means nothing). Its objects are declared and appended, and its blocks are left. An `Err` is want of memory, or a
/// full count.
#[cycle(lower_statement)]
pub fn lower_statement(
    alloc: Global,
    s: &Stmt,
    here: &mut Here,
    locals: &mut Vec<LocalVar>,
    within: Within<'_>,
    kind: IntKind,
) -> Result<Box<RStmt>, AllocError>
    requires { Resolvable (here_of here.old) (stmt_tree s.now) }
    ensures tree { IfOk result (λ made. made_tree made.value ≡ line within.entry.definitions.now within.entry.result kind (here_of here.old) (stmt_tree s.now)) }
    ensures past { OnOk result (here_of here.new ≡ past (here_of here.old) (stmt_tree s.now)) }
    ensures locals { OnOk result (map local_tree locals.new.items ≡ map local_tree locals.old.items ++ locals_of (here_of here.old) (stmt_tree s.now)) }
{
    match &s.kind {
        StmtKind::Declare(d) => declared_node(alloc, d, here, locals, within.definitions),
        StmtKind::Eval(e) => eval_node(alloc, known(here, within), e),
        StmtKind::Empty => parts_node(alloc, Vec::new(alloc)),
        StmtKind::Block(lines) => lower_block(
            alloc,
            block_lines(here, lines),
            here,
            locals,
            within,
        ),
        StmtKind::If(e, then, other) => {
            let test = test_part(alloc, known(here, within), e)?;
            let first = lower_statement(alloc, then, here, locals, within, IntKind::Int)?;
            let second = lower_other(alloc, other, here, locals, within)?;
            if_node(alloc, test, first, second)
        }
        StmtKind::While(e, body) => lower_while(alloc, body, e, here, locals, within),
        StmtKind::Do(body, e) => lower_do(alloc, body, e, here, locals, within),
        StmtKind::For(first, e, third, body) => {
            let outer = enter(here)?;
            let first = lower_first(alloc, first, here, locals, within)?;
            let head = for_head(alloc, known(here, within), first, s.span, e, third)?;
            let inner = lower_statement(alloc, body, here, locals, within, IntKind::Int)?;
            leave(here, outer);
            for_node(alloc, head, inner)
        }
        StmtKind::Switch(e, lines) => {
            lower_switch(alloc, switch_lines(here, e, lines), e, here, locals, within)
        }
        StmtKind::Case(e) => case_node(alloc, kind, &here.scope, e),
        StmtKind::Default => default_node(alloc),
        StmtKind::Break => break_node(alloc),
        StmtKind::Continue => continue_node(alloc),
        StmtKind::Goto(x) => goto_node(alloc, x, s.span),
        StmtKind::Label(x, inner) => {
            let inner = lower_statement(alloc, inner, here, locals, within, IntKind::Int)?;
            mark_node(alloc, x, inner)
        }
        StmtKind::Return(e) => return_node(alloc, known(here, within), within.result, e, s.span),
    }
}

/// The statement behind `else`, where an `if` has one; see [`lower_statement`].
#[cycle(lower_statement)]
fn lower_other(
    alloc: Global,
    other: &Option<Box<Stmt>>,
    here: &mut Here,
    locals: &mut Vec<LocalVar>,
    within: Within<'_>,
) -> Result<Option<Box<RStmt>>, AllocError>
    requires { ResolvablePerhaps (here_of here.old) (perhaps_of (option_map (λ s. stmt_tree s.value) other.now)) }
    ensures tree { IfOk result (λ made. else_of (option_map (λ s. made_tree s.value) made) ≡ other_line within.entry.definitions.now within.entry.result (here_of here.old) (perhaps_of (option_map (λ s. stmt_tree s.value) other.now))) }
    ensures past { OnOk result (here_of here.new ≡ past_perhaps (here_of here.old) (perhaps_of (option_map (λ s. stmt_tree s.value) other.now))) }
    ensures locals { OnOk result (map local_tree locals.new.items ≡ map local_tree locals.old.items ++ locals_perhaps (here_of here.old) (perhaps_of (option_map (λ s. stmt_tree s.value) other.now))) }
{
    match other {
        None => Ok(None),
        Some(s) => {
            let made = lower_statement(alloc, s, here, locals, within, IntKind::Int)?;
            Ok(Some(made))
        }
    }
}

/// The parts of the first part of a `for`, none where it is left out; see [`lower_statement`].
#[cycle(lower_statement)]
fn lower_first(
    alloc: Global,
    first: &Option<Box<Stmt>>,
    here: &mut Here,
    locals: &mut Vec<LocalVar>,
    within: Within<'_>,
) -> Result<Vec<RPart>, AllocError>
    requires { ResolvablePerhaps (here_of here.old) (perhaps_of (option_map (λ s. stmt_tree s.value) first.now)) }
    ensures parts { IfOk result (λ made. map part_tree made.items ≡ first_parts within.entry.definitions.now within.entry.result (here_of here.old) (perhaps_of (option_map (λ s. stmt_tree s.value) first.now))) }
    ensures past { OnOk result (here_of here.new ≡ past_perhaps (here_of here.old) (perhaps_of (option_map (λ s. stmt_tree s.value) first.now))) }
    ensures locals { OnOk result (map local_tree locals.new.items ≡ map local_tree locals.old.items ++ locals_perhaps (here_of here.old) (perhaps_of (option_map (λ s. stmt_tree s.value) first.now))) }
{
    match first {
        None => Ok(Vec::new(alloc)),
        Some(s) => {
            let made = lower_statement(alloc, s, here, locals, within, IntKind::Int)?;
            Ok(own_parts(alloc, made))
        }
    }
}

/// A `while`; see [`lower_statement`].
#[cycle(lower_statement)]
fn lower_while(
    alloc: Global,
    body: &Stmt,
    e: &Expr,
    here: &mut Here,
    locals: &mut Vec<LocalVar>,
    within: Within<'_>,
) -> Result<Box<RStmt>, AllocError>
    requires test { FineUse (scope_of here.old.scope) as_number (expr_tree e.now) }
    requires inner { Resolvable (here_of here.old) (stmt_tree body.now) }
    ensures tree { IfOk result (λ made. made_tree made.value ≡ while_loop (test_part within.entry.definitions.now (scope_of here.old.scope) (expr_tree e.now)) (line within.entry.definitions.now within.entry.result Int (here_of here.old) (stmt_tree body.now))) }
    ensures past { OnOk result (here_of here.new ≡ past (here_of here.old) (stmt_tree body.now)) }
    ensures locals { OnOk result (map local_tree locals.new.items ≡ map local_tree locals.old.items ++ locals_of (here_of here.old) (stmt_tree body.now)) }
{
    let test = test_part(alloc, known(here, within), e)?;
    let inner = lower_statement(alloc, body, here, locals, within, IntKind::Int)?;
    while_node(alloc, test, inner)
}

/// A `do`; see [`lower_statement`].
#[cycle(lower_statement)]
fn lower_do(
    alloc: Global,
    body: &Stmt,
    e: &Expr,
    here: &mut Here,
    locals: &mut Vec<LocalVar>,
    within: Within<'_>,
) -> Result<Box<RStmt>, AllocError>
    requires test { FineUse (scope_of here.old.scope) as_number (expr_tree e.now) }
    requires inner { Resolvable (here_of here.old) (stmt_tree body.now) }
    ensures tree { IfOk result (λ made. made_tree made.value ≡ do_loop (line within.entry.definitions.now within.entry.result Int (here_of here.old) (stmt_tree body.now)) (test_part within.entry.definitions.now (scope_of here.old.scope) (expr_tree e.now))) }
    ensures past { OnOk result (here_of here.new ≡ past (here_of here.old) (stmt_tree body.now)) }
    ensures locals { OnOk result (map local_tree locals.new.items ≡ map local_tree locals.old.items ++ locals_of (here_of here.old) (stmt_tree body.now)) }
{
    let test = test_part(alloc, known(here, within), e)?;
    let inner = lower_statement(alloc, body, here, locals, within, IntKind::Int)?;
    do_node(alloc, inner, test)
}

/// A block of these lines, which is entered and left; see [`lower_statement`].
#[cycle(lower_statement)]
fn lower_block(
    alloc: Global,
    lines: &[Stmt],
    here: &mut Here,
    locals: &mut Vec<LocalVar>,
    within: Within<'_>,
) -> Result<Box<RStmt>, AllocError>
    requires { ResolvableLines (entering (here_of here.old)) (stmts_of (map stmt_tree lines.now)) }
    ensures tree { IfOk result (λ made. made_tree made.value ≡ block (lines_of within.entry.definitions.now within.entry.result Int (entering (here_of here.old)) (stmts_of (map stmt_tree lines.now)))) }
    ensures past { OnOk result (here_of here.new ≡ leaving (here_of here.old) (past_lines (entering (here_of here.old)) (stmts_of (map stmt_tree lines.now)))) }
    ensures locals { OnOk result (map local_tree locals.new.items ≡ map local_tree locals.old.items ++ locals_lines (entering (here_of here.old)) (stmts_of (map stmt_tree lines.now))) }
{
    let outer = enter(here)?;
    let made = lower_lines(alloc, lines, here, locals, within, IntKind::Int)?;
    leave(here, outer);
    block_node(alloc, made)
}

/// A `switch` of these lines, whose block is entered and left; see [`lower_statement`].
#[cycle(lower_statement)]
fn lower_switch(
    alloc: Global,
    lines: &[Stmt],
    e: &Expr,
    here: &mut Here,
    locals: &mut Vec<LocalVar>,
    within: Within<'_>,
) -> Result<Box<RStmt>, AllocError>
    requires test { FineUse (scope_of here.old.scope) as_number (expr_tree e.now) }
    requires lines { ResolvableLines (entering (here_of here.old)) (stmts_of (map stmt_tree lines.now)) }
    ensures tree { IfOk result (λ made. made_tree made.value ≡ switch_on (switch_part within.entry.definitions.now (scope_of here.old.scope) (expr_tree e.now)) (lines_of within.entry.definitions.now within.entry.result (switch_kind (scope_of here.old.scope) (expr_tree e.now)) (entering (here_of here.old)) (stmts_of (map stmt_tree lines.now)))) }
    ensures past { OnOk result (here_of here.new ≡ leaving (here_of here.old) (past_lines (entering (here_of here.old)) (stmts_of (map stmt_tree lines.now)))) }
    ensures locals { OnOk result (map local_tree locals.new.items ≡ map local_tree locals.old.items ++ locals_lines (entering (here_of here.old)) (stmts_of (map stmt_tree lines.now))) }
{
    let part = switch_part(alloc, known(here, within), e)?;
    let kind = switch_kind(&here.scope, e);
    let outer = enter(here)?;
    let made = lower_lines(alloc, lines, here, locals, within, kind)?;
    leave(here, outer);
    switch_node(alloc, part, made)
}

/// What lines stand for, each of which sees what those before it declare; see [`lower_statement`].
#[cycle(lower_statement)]
pub(crate) fn lower_lines(
    alloc: Global,
    lines: &[Stmt],
    here: &mut Here,
    locals: &mut Vec<LocalVar>,
    within: Within<'_>,
    kind: IntKind,
) -> Result<Vec<RStmt>, AllocError>
    requires { ResolvableLines (here_of here.old) (stmts_of (map stmt_tree lines.now)) }
    ensures lines { IfOk result (λ made. made_lines (map made_tree made.items) ≡ lines_of within.entry.definitions.now within.entry.result kind (here_of here.old) (stmts_of (map stmt_tree lines.now))) }
    ensures past { OnOk result (here_of here.new ≡ past_lines (here_of here.old) (stmts_of (map stmt_tree lines.now))) }
    ensures locals { OnOk result (map local_tree locals.new.items ≡ map local_tree locals.old.items ++ locals_lines (here_of here.old) (stmts_of (map stmt_tree lines.now))) }
{
    let mut made = Vec::new(alloc);
    for line in lines {
        let one = lower_statement(alloc, line, here, locals, within, kind)?;
        push_line(&mut made, one)?;
    }
    Ok(made)
}
