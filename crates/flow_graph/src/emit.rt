//! The points of statements, by their numbers, last first: where a statement leads to is known from what follows it.
ghost use Rattle.std.specs.Prelude.{◌≡◌, ◌≤◌, ◌+◌, ◌++◌, IfOk, [], ◌∷◌, map, reverse, length};
ghost use Rattle.std.specs.Option.{option_map};
ghost use Rattle.csub_semantics.specs.Labels.{calls, call_tree, label_tree};
ghost use Rattle.csub_semantics.specs.Points.{at, next};
ghost use Rattle.csub_semantics.specs.Successors.{way, test_ways as test_ways'};
ghost use Rattle.csub_semantics.specs.Syntax.{call_stage, part_tree, do_loop, for_loop, switch_on, stmt_tree, stmts_of};
ghost use Rattle.flow_graph.specs.Jumps.{jump_by};
ghost use Rattle.flow_graph.specs.Numbers.{numbered_way, numbered_node, around as the_around, count, count_parts, count_head, count_list, enter, enter_part, enter_parts, enter_head, enter_list, case_ways, default_to, main_ways as main_ways', part_numbered, parts_numbered, head_numbered, numbered, list_numbered};

use crate::begin::{Begin, begin_again, ends, part_begin};
use crate::cases::{Cases, gather, switch_ways};
use crate::count::count_of;
use crate::jumps::{Jumps, jump};
use crate::node::{GraphNode, GraphWay, inner_path, one_way, point_at, push_node, step, test_ways};
use crate::onward::{Onward, looping, switching};
use csub_semantics::{Label, RCall, RPart, RStmt, copy_call, copy_label};
use csub_text::Span;
use std::alloc::{AllocError, Global};

/// What stands round a statement: where the `goto`s of its function lead, and where control goes from it.
#[derive(Clone, Copy)]
pub struct Around<'j> {
    pub jumps: &'j Jumps,
    pub onward: Onward,
}

/// Which part of which statement.
#[derive(Clone, Copy)]
struct Spot<'p> {
    /// The statement's path.
    path: &'p [u32],
    /// The part's number in it.
    part: u32,
}

/// What stands before the body of a `for`.
#[derive(Clone, Copy)]
struct Head<'s> {
    first: &'s [RPart],
    test: &'s RPart,
    third: &'s [RPart],
}

/// The lines of a list: where they begin, and where they lead as those of a `switch`.
#[derive(Drop)]
struct Lines {
    begin: Begin,
    cases: Cases,
}

/// Appends the point of a call, which is the stage of its part with the number `stage`.
fn push_call(
    alloc: Global,
    call: &RCall,
    spot: Spot<'_>,
    stage: usize,
    ways: Vec<GraphWay>,
    out: &mut Vec<GraphNode>,
) -> Result<(), AllocError>
    ensures { IfOk result (λ _. map numbered_node out.new.items ≡ map numbered_node out.old.items ++ record { point = at spot.entry.path.now spot.entry.part stage; label = calls (call_tree call.now.label); span = call.now.span; ways = map numbered_way ways.items } ∷ []) }
{
    let point = point_at(alloc, spot.path, spot.part, stage)?;
    let label = Label::Call(copy_call(alloc, &call.label)?);
    push_node(out, point, label, call.span, ways)
}

/// Appends a part's own point, which is its stage with the number `stage`.
fn push_own(
    alloc: Global,
    label: &Label,
    span: Span,
    spot: Spot<'_>,
    stage: usize,
    ways: Vec<GraphWay>,
    out: &mut Vec<GraphNode>,
) -> Result<(), AllocError>
    ensures { IfOk result (λ _. map numbered_node out.new.items ≡ map numbered_node out.old.items ++ record { point = at spot.entry.path.now spot.entry.part stage; label = label_tree label.now; span = span; ways = map numbered_way ways.items } ∷ []) }
{
    let point = point_at(alloc, spot.path, spot.part, stage)?;
    let label = copy_label(alloc, label)?;
    push_node(out, point, label, span, ways)
}

/// Appends the calls of a part at a place, last first; the number behind the last is `end`, and its ways out are `ways`.
fn emit_calls(
    alloc: Global,
    calls: &[RCall],
    span: Span,
    spot: Spot<'_>,
    end: u32,
    ways: Vec<GraphWay>,
    out: &mut Vec<GraphNode>,
) -> Result<u32, AllocError>
    requires { length calls.now ≤ end }
    ensures first { IfOk result (λ first. first + length calls.now ≡ end) }
    ensures nodes { IfOk result (λ first. map numbered_node out.new.items ≡ map numbered_node out.old.items ++ reverse (part_numbered (map (call_stage span) calls.now) 0 first spot.entry.path.now spot.entry.part (map numbered_way ways.items))) }
{
    let mut first = end;
    let mut ways = ways;
    for k in (0..calls.len()).rev() {
        first -= 1;
        push_call(alloc, &calls[k], spot, k, ways, out)?;
        ways = one_way(alloc, first)?;
    }
    Ok(first)
}

/// Appends the stages of a part, last first; the number behind the last is `end`, and its ways out are `ways`.
fn emit_stages(
    alloc: Global,
    part: &RPart,
    spot: Spot<'_>,
    end: u32,
    ways: Vec<GraphWay>,
    out: &mut Vec<GraphNode>,
) -> Result<u32, AllocError>
    requires { length (part_tree part.now) ≤ end }
    ensures first { IfOk result (λ first. first + length (part_tree part.now) ≡ end) }
    ensures nodes { IfOk result (λ first. map numbered_node out.new.items ≡ map numbered_node out.old.items ++ reverse (part_numbered (part_tree part.now) 0 first spot.entry.path.now spot.entry.part (map numbered_way ways.items))) }
{
    let calls = part.calls.as_slice();
    match &part.main {
        None => emit_calls(alloc, calls, part.span, spot, end, ways, out),
        Some(label) => {
            let own = end - 1;
            push_own(alloc, label, part.span, spot, calls.len(), ways, out)?;
            let onward = one_way(alloc, own)?;
            let first = emit_calls(alloc, calls, part.span, spot, own, onward, out)?;
            Ok(first)
        }
    }
}

/// Appends the points of a part as [`emit_stages`] does; a part without points begins with what is past it.
fn emit_part(
    alloc: Global,
    part: &RPart,
    spot: Spot<'_>,
    end: u32,
    ways: Vec<GraphWay>,
    past: u32,
    out: &mut Vec<GraphNode>,
) -> Result<Begin, AllocError>
    requires { length (part_tree part.now) ≤ end }
    ensures first { IfOk result (λ begin. begin.first + length (part_tree part.now) ≡ end) }
    ensures enter { IfOk result (λ begin. begin.enter ≡ enter_part (part_tree part.now) begin.first past) }
    ensures nodes { IfOk result (λ begin. map numbered_node out.new.items ≡ map numbered_node out.old.items ++ reverse (part_numbered (part_tree part.now) 0 begin.first spot.entry.path.now spot.entry.part (map numbered_way ways.items))) }
{
    let first = emit_stages(alloc, part, spot, end, ways, out)?;
    let enter = if first < end { first } else { past };
    Ok(Begin { first, enter })
}

/// Appends the points of a test as [`emit_part`] does; it leads to `when_true` or `when_false`.
fn emit_test(
    alloc: Global,
    test: &RPart,
    spot: Spot<'_>,
    end: u32,
    when_true: u32,
    when_false: u32,
    past: u32,
    out: &mut Vec<GraphNode>,
) -> Result<Begin, AllocError>
    requires { length (part_tree test.now) ≤ end }
    ensures first { IfOk result (λ begin. begin.first + length (part_tree test.now) ≡ end) }
    ensures enter { IfOk result (λ begin. begin.enter ≡ enter_part (part_tree test.now) begin.first past) }
    ensures nodes { IfOk result (λ begin. map numbered_node out.new.items ≡ map numbered_node out.old.items ++ reverse (part_numbered (part_tree test.now) 0 begin.first spot.entry.path.now spot.entry.part (test_ways' when_true when_false))) }
{
    let ways = test_ways(alloc, when_true, when_false)?;
    emit_part(alloc, test, spot, end, ways, past, out)
}

/// Appends the points of a `goto` that leads to the point `to`, as [`emit_part`] does.
fn emit_goto(
    alloc: Global,
    part: &RPart,
    path: &[u32],
    end: u32,
    to: u32,
    past: u32,
    out: &mut Vec<GraphNode>,
) -> Result<Begin, AllocError>
    requires { length (part_tree part.now) ≤ end }
    ensures first { IfOk result (λ begin. begin.first + length (part_tree part.now) ≡ end) }
    ensures enter { IfOk result (λ begin. begin.enter ≡ enter_part (part_tree part.now) begin.first past) }
    ensures nodes { IfOk result (λ begin. map numbered_node out.new.items ≡ map numbered_node out.old.items ++ reverse (part_numbered (part_tree part.now) 0 begin.first path.now 0 (way next to ∷ []))) }
{
    let ways = one_way(alloc, to)?;
    let spot = Spot { path, part: 0 };
    emit_part(alloc, part, spot, end, ways, past, out)
}

/// The ways out of the last stage of a part that is no test: a return leads to the function's exit, an end of the run
/// nowhere, and any other past the part.
fn main_ways(
    alloc: Global,
    part: &RPart,
    past: u32,
    returned: u32,
) -> Result<Vec<GraphWay>, AllocError>
    ensures { IfOk result (λ made. map numbered_way made.items ≡ main_ways' (option_map label_tree part.now.main) past returned) }
{
    match &part.main {
        Some(Label::Return(_)) => one_way(alloc, returned),
        Some(Label::Halt(_)) => Ok(Vec::new(alloc)),
        _ => one_way(alloc, past),
    }
}

/// Appends the points of the parts of a statement, last first; the first of them has the index `from`.
fn emit_parts(
    alloc: Global,
    parts: &[RPart],
    path: &[u32],
    from: u32,
    end: u32,
    onward: Onward,
    out: &mut Vec<GraphNode>,
) -> Result<Begin, AllocError>
    requires { count_parts (map part_tree parts.now) ≤ end }
    ensures first { IfOk result (λ begin. begin.first + count_parts (map part_tree parts.now) ≡ end) }
    ensures enter { IfOk result (λ begin. begin.enter ≡ enter_parts (map part_tree parts.now) begin.first onward.leave) }
    ensures nodes { IfOk result (λ begin. map numbered_node out.new.items ≡ map numbered_node out.old.items ++ reverse (parts_numbered (map part_tree parts.now) from begin.first path.now (the_around onward))) }
{
    let mut first = end;
    let mut enter = onward.leave;
    for i in (0..parts.len()).rev() {
        let part = &parts[i];
        let ways = main_ways(alloc, part, enter, onward.returned)?;
        let index = step(from as usize + i)?;
        let spot = Spot { path, part: index };
        let begin = emit_part(alloc, part, spot, first, ways, enter, out)?;
        first = begin.first;
        enter = begin.enter;
    }
    Ok(Begin { first, enter })
}

/// Appends the points of what stands before the body of a `for`, last first.
fn emit_head(
    alloc: Global,
    head: Head<'_>,
    path: &[u32],
    body: Begin,
    onward: Onward,
    out: &mut Vec<GraphNode>,
) -> Result<Begin, AllocError>
    requires { count_head (map part_tree head.first.now) (part_tree head.test.now) (map part_tree head.third.now) ≤ body.first }
    ensures first { IfOk result (λ begin. begin.first + count_head (map part_tree head.entry.first.now) (part_tree head.entry.test.now) (map part_tree head.entry.third.now) ≡ body.first) }
    ensures enter { IfOk result (λ begin. begin.enter ≡ enter_head (map part_tree head.entry.first.now) (part_tree head.entry.test.now) begin.first onward.leave) }
    ensures nodes { IfOk result (λ begin. map numbered_node out.new.items ≡ map numbered_node out.old.items ++ reverse (head_numbered (map part_tree head.entry.first.now) (part_tree head.entry.test.now) (map part_tree head.entry.third.now) begin.first path.now body.enter (the_around onward))) }
{
    let Head { first, test, third } = head;
    let again = begin_again(test, third, body.first, onward.leave);
    let back = Onward {
        leave: again.test.enter,
        ..onward
    };
    let behind = step(first.len() + 1)?;
    let end = emit_parts(alloc, third, path, behind, body.first, back, out)?.first;
    let index = step(first.len())?;
    let spot = Spot { path, part: index };
    let leave = onward.leave;
    let end = emit_test(alloc, test, spot, end, body.enter, leave, leave, out)?.first;
    emit_parts(alloc, first, path, 0, end, back, out)
}

/// Appends the points of the statement at `path`, last first; the number behind its last point is `end`.
#[cycle(emit)]
fn emit(
    alloc: Global,
    stmt: &RStmt,
    path: &[u32],
    end: u32,
    around: Around<'_>,
    out: &mut Vec<GraphNode>,
) -> Result<Begin, AllocError>
    requires { count (stmt_tree stmt.now) ≤ end }
    ensures first { IfOk result (λ begin. begin.first + count (stmt_tree stmt.now) ≡ end) }
    ensures enter { IfOk result (λ begin. begin.enter ≡ enter (stmt_tree stmt.now) begin.first (the_around around.entry.onward)) }
    ensures nodes { IfOk result (λ begin. map numbered_node out.new.items ≡ map numbered_node out.old.items ++ reverse (numbered (stmt_tree stmt.now) begin.first path.now (jump_by around.entry.jumps.now) (the_around around.entry.onward))) }
{
    let onward = around.onward;
    match stmt {
        RStmt::Parts(parts) => emit_parts(alloc, parts.as_slice(), path, 0, end, onward, out),
        RStmt::Block(stmts) => emit_list(alloc, stmts.as_slice(), path, end, around, out),
        RStmt::If(test, then, other) => {
            let on_false = match other {
                None => ends(end, onward.leave),
                Some(stmt) => emit_inner(alloc, stmt, path, 1, end, around, out)?,
            };
            emit_then(alloc, test, then, path, on_false, around, out)
        }
        RStmt::While(test, body) => {
            let (first, third): (&[RPart], &[RPart]) = (&[], &[]);
            let head = Head { first, test, third };
            emit_for(alloc, head, body, path, end, around, out)
        }
        RStmt::Do(body, test) => emit_do(alloc, body, test, path, end, around, out),
        RStmt::For(first, test, third, body) => {
            let (first, third) = (first.as_slice(), third.as_slice());
            let head = Head { first, test, third };
            emit_for(alloc, head, body, path, end, around, out)
        }
        RStmt::Switch(value, stmts) => {
            emit_switch(alloc, value, stmts.as_slice(), path, end, around, out)
        }
        RStmt::Case(_) | RStmt::Default => Ok(ends(end, onward.leave)),
        RStmt::Break => Ok(ends(end, onward.broken)),
        RStmt::Continue => Ok(ends(end, onward.continued)),
        RStmt::Goto(name, part) => {
            let to = jump(around.jumps, name);
            emit_goto(alloc, part, path, end, to, onward.leave, out)
        }
        RStmt::Mark(_, stmt) => emit_inner(alloc, stmt, path, 0, end, around, out),
    }
}

/// Appends the points of a statement inside the one at `path`, as [`emit`] does.
#[cycle(emit)]
fn emit_inner(
    alloc: Global,
    stmt: &RStmt,
    path: &[u32],
    step: u32,
    end: u32,
    around: Around<'_>,
    out: &mut Vec<GraphNode>,
) -> Result<Begin, AllocError>
    requires { count (stmt_tree stmt.now) ≤ end }
    ensures first { IfOk result (λ begin. begin.first + count (stmt_tree stmt.now) ≡ end) }
    ensures enter { IfOk result (λ begin. begin.enter ≡ enter (stmt_tree stmt.now) begin.first (the_around around.entry.onward)) }
    ensures nodes { IfOk result (λ begin. map numbered_node out.new.items ≡ map numbered_node out.old.items ++ reverse (numbered (stmt_tree stmt.now) begin.first (path.now ++ step ∷ []) (jump_by around.entry.jumps.now) (the_around around.entry.onward))) }
{
    let inner = inner_path(alloc, path, step)?;
    emit(alloc, stmt, inner.as_slice(), end, around, out)
}

/// Appends the points of the test and of the first branch of an `if`, whose other branch begins as `on_false` says.
#[cycle(emit)]
fn emit_then(
    alloc: Global,
    test: &RPart,
    then: &RStmt,
    path: &[u32],
    on_false: Begin,
    around: Around<'_>,
    out: &mut Vec<GraphNode>,
) -> Result<Begin, AllocError>
    requires { length (part_tree test.now) + count (stmt_tree then.now) ≤ on_false.first }
    ensures first { IfOk result (λ begin. begin.first + length (part_tree test.now) + count (stmt_tree then.now) ≡ on_false.first) }
    ensures enter { IfOk result (λ begin. begin.enter ≡ enter_part (part_tree test.now) begin.first around.entry.onward.leave) }
    ensures nodes { IfOk result (λ begin. map numbered_node out.new.items ≡ map numbered_node out.old.items ++ reverse (part_numbered (part_tree test.now) 0 begin.first path.now 0 (test_ways' (enter (stmt_tree then.now) (begin.first + length (part_tree test.now)) (the_around around.entry.onward)) on_false.enter) ++ numbered (stmt_tree then.now) (begin.first + length (part_tree test.now)) (path.now ++ 0 ∷ []) (jump_by around.entry.jumps.now) (the_around around.entry.onward))) }
{
    let on_true = emit_inner(alloc, then, path, 0, on_false.first, around, out)?;
    let spot = Spot { path, part: 0 };
    let leave = around.onward.leave;
    emit_test(
        alloc,
        test,
        spot,
        on_true.first,
        on_true.enter,
        on_false.enter,
        leave,
        out,
    )
}

/// Appends the points of a `for`, or of a `while`, which is a `for` of a test alone.
///
/// The end of its body leads back to points before the body's, so the body's are counted first.
#[cycle(emit)]
fn emit_for(
    alloc: Global,
    head: Head<'_>,
    body: &RStmt,
    path: &[u32],
    end: u32,
    around: Around<'_>,
    out: &mut Vec<GraphNode>,
) -> Result<Begin, AllocError>
    requires { count (for_loop (map part_tree head.first.now) (part_tree head.test.now) (map part_tree head.third.now) (stmt_tree body.now)) ≤ end }
    ensures first { IfOk result (λ begin. begin.first + count (for_loop (map part_tree head.entry.first.now) (part_tree head.entry.test.now) (map part_tree head.entry.third.now) (stmt_tree body.now)) ≡ end) }
    ensures enter { IfOk result (λ begin. begin.enter ≡ enter (for_loop (map part_tree head.entry.first.now) (part_tree head.entry.test.now) (map part_tree head.entry.third.now) (stmt_tree body.now)) begin.first (the_around around.entry.onward)) }
    ensures nodes { IfOk result (λ begin. map numbered_node out.new.items ≡ map numbered_node out.old.items ++ reverse (numbered (for_loop (map part_tree head.entry.first.now) (part_tree head.entry.test.now) (map part_tree head.entry.third.now) (stmt_tree body.now)) begin.first path.now (jump_by around.entry.jumps.now) (the_around around.entry.onward))) }
{
    let onward = around.onward;
    let again = begin_again(head.test, head.third, end - count_of(body), onward.leave);
    let within = Around {
        onward: looping(onward, again.third.enter),
        ..around
    };
    let begun = emit_inner(alloc, body, path, 0, end, within, out)?;
    let begin = emit_head(alloc, head, path, begun, onward, out)?;
    Ok(begin)
}

/// Appends the points of a `do`.
///
/// Its test leads back to where its body begins, so the body's points are made first, and moved behind the test's.
#[cycle(emit)]
fn emit_do(
    alloc: Global,
    body: &RStmt,
    test: &RPart,
    path: &[u32],
    end: u32,
    around: Around<'_>,
    out: &mut Vec<GraphNode>,
) -> Result<Begin, AllocError>
    requires { count (do_loop (stmt_tree body.now) (part_tree test.now)) ≤ end }
    ensures first { IfOk result (λ begin. begin.first + count (do_loop (stmt_tree body.now) (part_tree test.now)) ≡ end) }
    ensures enter { IfOk result (λ begin. begin.enter ≡ enter (do_loop (stmt_tree body.now) (part_tree test.now)) begin.first (the_around around.entry.onward)) }
    ensures nodes { IfOk result (λ begin. map numbered_node out.new.items ≡ map numbered_node out.old.items ++ reverse (numbered (do_loop (stmt_tree body.now) (part_tree test.now)) begin.first path.now (jump_by around.entry.jumps.now) (the_around around.entry.onward))) }
{
    let onward = around.onward;
    let tested = part_begin(test, end, onward.leave);
    let within = Around {
        onward: looping(onward, tested.enter),
        ..around
    };
    let mut nodes = Vec::new(alloc);
    let begun = emit_inner(alloc, body, path, 0, tested.first, within, &mut nodes)?;
    let spot = Spot { path, part: 0 };
    let leave = onward.leave;
    emit_test(alloc, test, spot, end, begun.enter, leave, leave, out)?;
    out.append(&mut nodes)?;
    Ok(begun)
}

/// Appends the points of a `switch`.
#[cycle(emit)]
fn emit_switch(
    alloc: Global,
    value: &RPart,
    stmts: &[RStmt],
    path: &[u32],
    end: u32,
    around: Around<'_>,
    out: &mut Vec<GraphNode>,
) -> Result<Begin, AllocError>
    requires { count (switch_on (part_tree value.now) (stmts_of (map stmt_tree stmts.now))) ≤ end }
    ensures first { IfOk result (λ begin. begin.first + count (switch_on (part_tree value.now) (stmts_of (map stmt_tree stmts.now))) ≡ end) }
    ensures enter { IfOk result (λ begin. begin.enter ≡ enter (switch_on (part_tree value.now) (stmts_of (map stmt_tree stmts.now))) begin.first (the_around around.entry.onward)) }
    ensures nodes { IfOk result (λ begin. map numbered_node out.new.items ≡ map numbered_node out.old.items ++ reverse (numbered (switch_on (part_tree value.now) (stmts_of (map stmt_tree stmts.now))) begin.first path.now (jump_by around.entry.jumps.now) (the_around around.entry.onward))) }
{
    let within = Around {
        onward: switching(around.onward),
        ..around
    };
    let Lines { begin, cases } = emit_lines(alloc, stmts, path, end, within, out)?;
    let ways = switch_ways(alloc, stmts, cases)?;
    let spot = Spot { path, part: 0 };
    emit_part(
        alloc,
        value,
        spot,
        begin.first,
        ways,
        around.onward.leave,
        out,
    )
}

/// Appends the points of the lines of the list at `path`, last first; the number behind its last point is `end`.
#[cycle(emit)]
pub fn emit_list(
    alloc: Global,
    stmts: &[RStmt],
    path: &[u32],
    end: u32,
    around: Around<'_>,
    out: &mut Vec<GraphNode>,
) -> Result<Begin, AllocError>
    requires { count_list (stmts_of (map stmt_tree stmts.now)) ≤ end }
    ensures first { IfOk result (λ begin. begin.first + count_list (stmts_of (map stmt_tree stmts.now)) ≡ end) }
    ensures enter { IfOk result (λ begin. begin.enter ≡ enter_list (stmts_of (map stmt_tree stmts.now)) begin.first (the_around around.entry.onward)) }
    ensures nodes { IfOk result (λ begin. map numbered_node out.new.items ≡ map numbered_node out.old.items ++ reverse (list_numbered (stmts_of (map stmt_tree stmts.now)) 0 begin.first path.now (jump_by around.entry.jumps.now) (the_around around.entry.onward))) }
{
    let lines = emit_lines(alloc, stmts, path, end, around, out)?;
    Ok(lines.begin)
}

/// Appends the points of the lines of a list as [`emit_list`] does, and gathers where they lead as those of a `switch`.
#[cycle(emit)]
fn emit_lines(
    alloc: Global,
    stmts: &[RStmt],
    path: &[u32],
    end: u32,
    around: Around<'_>,
    out: &mut Vec<GraphNode>,
) -> Result<Lines, AllocError>
    requires { count_list (stmts_of (map stmt_tree stmts.now)) ≤ end }
    ensures first { IfOk result (λ lines. lines.begin.first + count_list (stmts_of (map stmt_tree stmts.now)) ≡ end) }
    ensures enter { IfOk result (λ lines. lines.begin.enter ≡ enter_list (stmts_of (map stmt_tree stmts.now)) lines.begin.first (the_around around.entry.onward)) }
    ensures ways { IfOk result (λ lines. map numbered_way lines.cases.ways.items ≡ reverse (case_ways (stmts_of (map stmt_tree stmts.now)) lines.begin.first (the_around around.entry.onward))) }
    ensures other { IfOk result (λ lines. lines.cases.other ≡ default_to (stmts_of (map stmt_tree stmts.now)) lines.begin.first (the_around around.entry.onward)) }
    ensures nodes { IfOk result (λ lines. map numbered_node out.new.items ≡ map numbered_node out.old.items ++ reverse (list_numbered (stmts_of (map stmt_tree stmts.now)) 0 lines.begin.first path.now (jump_by around.entry.jumps.now) (the_around around.entry.onward))) }
{
    let onward = around.onward;
    let mut first = end;
    let mut enter = onward.leave;
    let mut cases = Cases {
        ways: Vec::new(alloc),
        other: onward.leave,
    };
    for i in (0..stmts.len()).rev() {
        let stmt = &stmts[i];
        gather(stmt, enter, &mut cases)?;
        let past = Onward {
            leave: enter,
            ..onward
        };
        let past = Around {
            onward: past,
            ..around
        };
        let begin = emit_inner(alloc, stmt, path, step(i)?, first, past, out)?;
        first = begin.first;
        enter = begin.enter;
    }
    let begin = Begin { first, enter };
    Ok(Lines { begin, cases })
}
