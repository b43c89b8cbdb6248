//! Statements by what they are made of.
ghost use Rattle.std.specs.Prelude.{◌≡◌, ◌++◌, ◌∷◌, [], IfOk, OnOk, map, option_map};
ghost use Rattle.csub_scopes.specs.Meanings.{scope_of};
ghost use Rattle.csub_semantics.specs.Syntax.{block, breaks, case_label, conditional, continues, default_label, do_loop, for_loop, goes_to};
ghost use Rattle.csub_semantics.specs.Syntax.{marked, part_tree, parts, stmt_tree as made_tree, stmts_of as made_lines, switch_on, while_loop};
ghost use Rattle.csub_semantics.specs.Labels.{jumps};
ghost use Rattle.csub_tree.specs.Expressions.{expr_tree};
ghost use Rattle.csub_rules.specs.Words.{word_goto};
ghost use Rattle.csub_nodes.specs.Nodes.{else_of};
ghost use Rattle.csub_resolution.specs.Lines.{case_value, own, own_parts};

use crate::part::{goto_part, one_part};
use csub_check::constant;
use csub_scopes::Scope;
use csub_semantics::{RPart, RStmt};
use csub_text::Span;
use csub_tree::{Expr, Name};
use csub_types::{IntKind, convert};
use std::alloc::{AllocError, Global};
use std::mem;

/// A statement in a box. All are boxed here, since a call of a generic function at a type of many forms takes long to prove.
fn boxed(alloc: Global, made: RStmt) -> Result<Box<RStmt>, AllocError>
    ensures { IfOk result (λ there. there.value ≡ made) }
{
    Ok(Box::new(alloc, made)?)
}

/// Adds a statement to lines. An `Err` is want of memory. All are added here, for the same reason.
pub fn push_line(lines: &mut Vec<RStmt>, line: Box<RStmt>) -> Result<(), AllocError>
    ensures { OnOk result (lines.new.items ≡ lines.old.items ++ line.value ∷ []) }
{
    lines.push(Box::into_inner(line))?;
    Ok(())
}

/// The statement of these parts. An `Err` is want of memory.
pub fn parts_node(alloc: Global, row: Vec<RPart>) -> Result<Box<RStmt>, AllocError>
    ensures { IfOk result (λ made. made_tree made.value ≡ parts (map part_tree row.items)) }
{
    boxed(alloc, RStmt::Parts(row))
}

/// A statement of one part.
pub fn part_node(alloc: Global, part: Box<RPart>) -> Result<Box<RStmt>, AllocError>
    ensures { IfOk result (λ made. made_tree made.value ≡ parts (part_tree part.value ∷ [])) }
{
    parts_node(alloc, one_part(alloc, part)?)
}

/// A block.
pub fn block_node(alloc: Global, lines: Vec<RStmt>) -> Result<Box<RStmt>, AllocError>
    ensures { IfOk result (λ made. made_tree made.value ≡ block (made_lines (map made_tree lines.items))) }
{
    boxed(alloc, RStmt::Block(lines))
}

/// An `if`, with or without `else`.
pub fn if_node(
    alloc: Global,
    test: Box<RPart>,
    then: Box<RStmt>,
    other: Option<Box<RStmt>>,
) -> Result<Box<RStmt>, AllocError>
    ensures { IfOk result (λ made. made_tree made.value ≡ conditional (part_tree test.value) (made_tree then.value) (else_of (option_map (λ s. made_tree s.value) other))) }
{
    boxed(alloc, RStmt::If(Box::into_inner(test), then, other))
}

/// A `while`.
pub fn while_node(
    alloc: Global,
    test: Box<RPart>,
    body: Box<RStmt>,
) -> Result<Box<RStmt>, AllocError>
    ensures { IfOk result (λ made. made_tree made.value ≡ while_loop (part_tree test.value) (made_tree body.value)) }
{
    boxed(alloc, RStmt::While(Box::into_inner(test), body))
}

/// A `do`.
pub fn do_node(alloc: Global, body: Box<RStmt>, test: Box<RPart>) -> Result<Box<RStmt>, AllocError>
    ensures { IfOk result (λ made. made_tree made.value ≡ do_loop (made_tree body.value) (part_tree test.value)) }
{
    boxed(alloc, RStmt::Do(body, Box::into_inner(test)))
}

/// What stands in the parentheses of a `for`.
#[derive(Drop)]
pub struct Head {
    /// Its first part.
    pub first: Vec<RPart>,
    /// Its test.
    pub test: Box<RPart>,
    /// Its third part.
    pub third: Vec<RPart>,
}

/// A `for`.
pub fn for_node(alloc: Global, head: Head, body: Box<RStmt>) -> Result<Box<RStmt>, AllocError>
    ensures { IfOk result (λ made. made_tree made.value ≡ for_loop (map part_tree head.first.items) (part_tree head.test.value) (map part_tree head.third.items) (made_tree body.value)) }
{
    let test = Box::into_inner(head.test);
    boxed(alloc, RStmt::For(head.first, test, head.third, body))
}

/// A `switch`.
pub fn switch_node(
    alloc: Global,
    part: Box<RPart>,
    lines: Vec<RStmt>,
) -> Result<Box<RStmt>, AllocError>
    ensures { IfOk result (λ made. made_tree made.value ≡ switch_on (part_tree part.value) (made_lines (map made_tree lines.items))) }
{
    boxed(alloc, RStmt::Switch(Box::into_inner(part), lines))
}

/// The value of a `case`, converted to the kind of its `switch` (C11 6.8.4.2p5).
fn case_value(kind: IntKind, scope: &Scope, e: &Expr) -> i64
    ensures { result ≡ case_value kind (scope_of scope.now) (expr_tree e.now) }
{
    convert(kind, constant(scope, e).unwrap_or(0))
}

/// A `case`.
pub fn case_node(
    alloc: Global,
    kind: IntKind,
    scope: &Scope,
    e: &Expr,
) -> Result<Box<RStmt>, AllocError>
    ensures { IfOk result (λ made. made_tree made.value ≡ case_label (case_value kind (scope_of scope.now) (expr_tree e.now))) }
{
    boxed(alloc, RStmt::Case(case_value(kind, scope, e)))
}

/// A `default`.
pub fn default_node(alloc: Global) -> Result<Box<RStmt>, AllocError>
    ensures { IfOk result (λ made. made_tree made.value ≡ default_label) }
{
    boxed(alloc, RStmt::Default)
}

/// A `break`.
pub fn break_node(alloc: Global) -> Result<Box<RStmt>, AllocError>
    ensures { IfOk result (λ made. made_tree made.value ≡ breaks) }
{
    boxed(alloc, RStmt::Break)
}

/// A `continue`.
pub fn continue_node(alloc: Global) -> Result<Box<RStmt>, AllocError>
    ensures { IfOk result (λ made. made_tree made.value ≡ continues) }
{
    boxed(alloc, RStmt::Continue)
}

/// A `goto` at a place, of a label of this name.
pub fn goto_node(alloc: Global, x: &Name, span: Span) -> Result<Box<RStmt>, AllocError>
    ensures { IfOk result (λ made. made_tree made.value ≡ goes_to x.now.text (own jumps (word_goto span))) }
{
    let name = x.text.copy()?;
    let part = goto_part(alloc, span)?;
    boxed(alloc, RStmt::Goto(name, Box::into_inner(part)))
}

/// A statement with a label of this name.
pub fn mark_node(alloc: Global, x: &Name, inner: Box<RStmt>) -> Result<Box<RStmt>, AllocError>
    ensures { IfOk result (λ made. made_tree made.value ≡ marked x.now.text (made_tree inner.value)) }
{
    let name = x.text.copy()?;
    boxed(alloc, RStmt::Mark(name, inner))
}

/// The parts of a statement without statements inside, as the first part of a `for` is one.
pub fn own_parts(alloc: Global, made: Box<RStmt>) -> Vec<RPart>
    ensures { map part_tree result.items ≡ own_parts (made_tree made.value) }
{
    let mut stmt = made;
    match &mut *stmt {
        RStmt::Parts(row) => mem::replace(row, Vec::new(alloc)),
        _ => Vec::new(alloc),
    }
}
