//! Where labelled statements begin: one pass over statements from their end, as points are made, that makes none.
ghost use Rattle.std.specs.Prelude.{◌≡◌, ◌≤◌, ◌+◌, ◌++◌, IfOk, [], ◌∷◌, length, map, reverse};
ghost use Rattle.csub_semantics.specs.Syntax.{part_tree, do_loop, for_loop, stmt_tree, stmts_of};
ghost use Rattle.csub_semantics.specs.Successors.{switching as switching'};
ghost use Rattle.flow_graph.specs.Numbers.{around, count, count_list, enter, enter_list, enter_part, marks, marks_list, numbered_mark};

use crate::begin::{Begin, begin_again, ends, part_begin, parts_begin};
use crate::count::count_of;
use crate::onward::{Onward, looping, switching};
use csub_semantics::{RPart, RStmt, Text};
use std::alloc::AllocError;

/// A labelled statement.
#[derive(Drop)]
pub struct Labelled {
    /// The label's name.
    pub name: Text,
    /// The number of the point at which the statement begins.
    pub to: u32,
}

/// Appends a labelled statement.
fn push_mark(name: &Text, to: u32, out: &mut Vec<Labelled>) -> Result<(), AllocError>
    ensures { IfOk result (λ _. map numbered_mark out.new.items ≡ map numbered_mark out.old.items ++ record { name = name.now; to = to } ∷ []) }
{
    let name = name.copy()?;
    out.push(Labelled { name, to })?;
    Ok(())
}

/// Appends the labelled statements inside a statement, last first; the number behind its last point is `end`.
#[cycle(mark)]
fn mark(
    stmt: &RStmt,
    end: u32,
    onward: Onward,
    out: &mut Vec<Labelled>,
) -> Result<Begin, AllocError>
    requires { count (stmt_tree stmt.now) ≤ end }
    ensures first { IfOk result (λ begin. begin.first + count (stmt_tree stmt.now) ≡ end) }
    ensures enter { IfOk result (λ begin. begin.enter ≡ enter (stmt_tree stmt.now) begin.first (around onward)) }
    ensures marks { IfOk result (λ begin. map numbered_mark out.new.items ≡ map numbered_mark out.old.items ++ reverse (marks (stmt_tree stmt.now) begin.first (around onward))) }
{
    match stmt {
        RStmt::Parts(parts) => Ok(parts_begin(parts.as_slice(), end, onward.leave)),
        RStmt::Block(stmts) => mark_list(stmts.as_slice(), end, onward, out),
        RStmt::If(test, then, other) => {
            let on_false = match other {
                None => ends(end, onward.leave),
                Some(stmt) => mark(stmt, end, onward, out)?,
            };
            mark_then(test, then, on_false.first, onward, out)
        }
        RStmt::While(test, body) => mark_for(&[], test, &[], body, end, onward, out),
        RStmt::Do(body, test) => mark_do(body, test, end, onward, out),
        RStmt::For(first, test, third, body) => {
            let (first, third) = (first.as_slice(), third.as_slice());
            mark_for(first, test, third, body, end, onward, out)
        }
        RStmt::Switch(value, stmts) => { mark_switch(value, stmts.as_slice(), end, onward, out) }
        RStmt::Case(_) | RStmt::Default => Ok(ends(end, onward.leave)),
        RStmt::Break => Ok(ends(end, onward.broken)),
        RStmt::Continue => Ok(ends(end, onward.continued)),
        RStmt::Goto(_, part) => Ok(part_begin(part, end, onward.leave)),
        RStmt::Mark(name, stmt) => {
            let begin = mark(stmt, end, onward, out)?;
            push_mark(name, begin.enter, out)?;
            Ok(begin)
        }
    }
}

/// Appends the labelled statements of the first branch of an `if`; the number behind its last point is `end`.
#[cycle(mark)]
fn mark_then(
    test: &RPart,
    then: &RStmt,
    end: u32,
    onward: Onward,
    out: &mut Vec<Labelled>,
) -> Result<Begin, AllocError>
    requires { length (part_tree test.now) + count (stmt_tree then.now) ≤ end }
    ensures first { IfOk result (λ begin. begin.first + length (part_tree test.now) + count (stmt_tree then.now) ≡ end) }
    ensures enter { IfOk result (λ begin. begin.enter ≡ enter_part (part_tree test.now) begin.first onward.leave) }
    ensures marks { IfOk result (λ begin. map numbered_mark out.new.items ≡ map numbered_mark out.old.items ++ reverse (marks (stmt_tree then.now) (begin.first + length (part_tree test.now)) (around onward))) }
{
    let on_true = mark(then, end, onward, out)?;
    Ok(part_begin(test, on_true.first, onward.leave))
}

/// Appends the labelled statements of a `switch`.
#[cycle(mark)]
fn mark_switch(
    value: &RPart,
    stmts: &[RStmt],
    end: u32,
    onward: Onward,
    out: &mut Vec<Labelled>,
) -> Result<Begin, AllocError>
    requires { length (part_tree value.now) + count_list (stmts_of (map stmt_tree stmts.now)) ≤ end }
    ensures first { IfOk result (λ begin. begin.first + length (part_tree value.now) + count_list (stmts_of (map stmt_tree stmts.now)) ≡ end) }
    ensures enter { IfOk result (λ begin. begin.enter ≡ enter_part (part_tree value.now) begin.first onward.leave) }
    ensures marks { IfOk result (λ begin. map numbered_mark out.new.items ≡ map numbered_mark out.old.items ++ reverse (marks_list (stmts_of (map stmt_tree stmts.now)) (begin.first + length (part_tree value.now)) (switching' (around onward)))) }
{
    let lines = mark_list(stmts, end, switching(onward), out)?;
    Ok(part_begin(value, lines.first, onward.leave))
}

/// Appends the labelled statements of a `for`, or of a `while`, which is a `for` of a test alone.
#[cycle(mark)]
fn mark_for(
    first: &[RPart],
    test: &RPart,
    third: &[RPart],
    body: &RStmt,
    end: u32,
    onward: Onward,
    out: &mut Vec<Labelled>,
) -> Result<Begin, AllocError>
    requires { count (for_loop (map part_tree first.now) (part_tree test.now) (map part_tree third.now) (stmt_tree body.now)) ≤ end }
    ensures first { IfOk result (λ begin. begin.first + count (for_loop (map part_tree first.now) (part_tree test.now) (map part_tree third.now) (stmt_tree body.now)) ≡ end) }
    ensures enter { IfOk result (λ begin. begin.enter ≡ enter (for_loop (map part_tree first.now) (part_tree test.now) (map part_tree third.now) (stmt_tree body.now)) begin.first (around onward)) }
    ensures marks { IfOk result (λ begin. map numbered_mark out.new.items ≡ map numbered_mark out.old.items ++ reverse (marks (for_loop (map part_tree first.now) (part_tree test.now) (map part_tree third.now) (stmt_tree body.now)) begin.first (around onward))) }
{
    let again = begin_again(test, third, end - count_of(body), onward.leave);
    mark(body, end, looping(onward, again.third.enter), out)?;
    Ok(parts_begin(first, again.test.first, again.test.enter))
}

/// Appends the labelled statements of a `do`.
#[cycle(mark)]
fn mark_do(
    body: &RStmt,
    test: &RPart,
    end: u32,
    onward: Onward,
    out: &mut Vec<Labelled>,
) -> Result<Begin, AllocError>
    requires { count (do_loop (stmt_tree body.now) (part_tree test.now)) ≤ end }
    ensures first { IfOk result (λ begin. begin.first + count (do_loop (stmt_tree body.now) (part_tree test.now)) ≡ end) }
    ensures enter { IfOk result (λ begin. begin.enter ≡ enter (do_loop (stmt_tree body.now) (part_tree test.now)) begin.first (around onward)) }
    ensures marks { IfOk result (λ begin. map numbered_mark out.new.items ≡ map numbered_mark out.old.items ++ reverse (marks (do_loop (stmt_tree body.now) (part_tree test.now)) begin.first (around onward))) }
{
    let tested = part_begin(test, end, onward.leave);
    mark(body, tested.first, looping(onward, tested.enter), out)
}

/// Appends the labelled statements inside the lines of a list, last first; the number behind its last point is `end`.
#[cycle(mark)]
pub fn mark_list(
    stmts: &[RStmt],
    end: u32,
    onward: Onward,
    out: &mut Vec<Labelled>,
) -> Result<Begin, AllocError>
    requires { count_list (stmts_of (map stmt_tree stmts.now)) ≤ end }
    ensures first { IfOk result (λ begin. begin.first + count_list (stmts_of (map stmt_tree stmts.now)) ≡ end) }
    ensures enter { IfOk result (λ begin. begin.enter ≡ enter_list (stmts_of (map stmt_tree stmts.now)) begin.first (around onward)) }
    ensures marks { IfOk result (λ begin. map numbered_mark out.new.items ≡ map numbered_mark out.old.items ++ reverse (marks_list (stmts_of (map stmt_tree stmts.now)) begin.first (around onward))) }
{
    let mut first = end;
    let mut enter = onward.leave;
    for i in (0..stmts.len()).rev() {
        let stmt = &stmts[i];
        let past = Onward {
            leave: enter,
            ..onward
        };
        let begin = mark(stmt, first, past, out)?;
        first = begin.first;
        enter = begin.enter;
    }
    Ok(Begin { first, enter })
}
