//! How many points and edges functions have.
//!
//! A count is taken away from what is left of the largest `usize`, and ends at once where too little is left.
ghost use Rattle.std.specs.Prelude.{◌≡◌, ◌≤◌, ◌<◌, ◌+◌, ◌-◌, map, sum_by, length};
ghost use Rattle.std.specs.Option.{SomeIff, option_map};
ghost use Rattle.csub_semantics.specs.Labels.{label_tree};
ghost use Rattle.csub_semantics.specs.Syntax.{part_tree, stmt_tree, stmts_of, function_tree};
ghost use Rattle.csub_semantics.specs.Successors.{case_of, case_values};
ghost use Rattle.csub_semantics.specs.Flows.{points_of};
ghost use Rattle.csub_limits.specs.Limits.{edges_of};
ghost use Rattle.csub_limits.specs.Counts.{count, count_ends, count_function, count_part, count_stages, end_count, last_count, stage_count};

use csub_semantics::{Function, Label, RPart, RStmt};

/// What is counted of a program.
#[derive(Clone, Copy, Debug, PartialEq, Eq)]
pub enum Measure {
    /// Its points.
    Points,
    /// Its edges, which are the ways out of points.
    Edges,
}

impl Measure {
    /// The count of a function's entry and exit.
    fn of_ends(self) -> usize
        ensures { result ≡ count_ends self }
    {
        match self {
            Measure::Points => 2,
            Measure::Edges => 1,
        }
    }

    /// The count of a stage with so many ways out.
    fn of_stage(self, ways: usize) -> usize
        ensures { result ≡ stage_count self ways }
    {
        match self {
            Measure::Points => 1,
            Measure::Edges => ways,
        }
    }
}

/// How many points the functions have: each has an entry and an exit, and each stage is one. None where they are more than a
/// `usize` tells.
pub fn point_count(functions: &[Function]) -> Option<usize>
    ensures { SomeIff result (length (points_of (map function_tree functions.now)) ≤ 18446744073709551615) (length (points_of (map function_tree functions.now))) }
{
    let room = room_after_functions(functions, Measure::Points, usize::MAX)?;
    Some(usize::MAX - room)
}

/// How many edges the functions have: an entry and each stage have one, but a test has two, a `switch` one for each case and
/// one beside, and `exit` none. None where they are more than a `usize` tells.
pub fn edge_count(functions: &[Function]) -> Option<usize>
    ensures { SomeIff result (length (edges_of (map function_tree functions.now)) ≤ 18446744073709551615) (length (edges_of (map function_tree functions.now))) }
{
    let room = room_after_functions(functions, Measure::Edges, usize::MAX)?;
    Some(usize::MAX - room)
}

/// What is left of `most` after the count of the functions.
fn room_after_functions(functions: &[Function], measure: Measure, most: usize) -> Option<usize>
    ensures { SomeIff result (sum_by (λ f. count_function measure (function_tree f)) functions.now ≤ most) (most - sum_by (λ f. count_function measure (function_tree f)) functions.now) }
{
    let mut room = most;
    for function in functions {
        room = room_after_function(function, measure, room)?;
    }
    Some(room)
}

/// What is left of `room` after the count of a function.
fn room_after_function(function: &Function, measure: Measure, room: usize) -> Option<usize>
    ensures { SomeIff result (count_function measure (function_tree function.now) ≤ room) (room - count_function measure (function_tree function.now)) }
{
    let ends = measure.of_ends();
    let inside = room.checked_sub(ends)?;
    room_after_stmts(&function.body, measure, inside)
}

/// What is left of `room` after the count of a statement.
#[cycle(count)]
fn room_after_stmt(stmt: &RStmt, measure: Measure, room: usize) -> Option<usize>
    ensures { SomeIff result (count measure (stmt_tree stmt.now) ≤ room) (room - count measure (stmt_tree stmt.now)) }
{
    match stmt {
        RStmt::Parts(parts) => room_after_parts(parts, measure, room),
        RStmt::Block(stmts) => room_after_stmts(stmts, measure, room),
        RStmt::If(test, then, other) => {
            let after_test = room_after_test(test, measure, room)?;
            let after_then = room_after_stmt(then, measure, after_test)?;
            match other {
                None => Some(after_then),
                Some(stmt) => room_after_stmt(stmt, measure, after_then),
            }
        }
        RStmt::While(test, body) => {
            let after_test = room_after_test(test, measure, room)?;
            room_after_stmt(body, measure, after_test)
        }
        RStmt::Do(body, test) => {
            let after_body = room_after_stmt(body, measure, room)?;
            room_after_test(test, measure, after_body)
        }
        RStmt::For(first, test, third, body) => {
            let after_head = room_after_head(first, test, third, measure, room)?;
            room_after_stmt(body, measure, after_head)
        }
        RStmt::Switch(value, stmts) => {
            let after_value = room_after_switch(value, stmts, measure, room)?;
            room_after_stmts(stmts, measure, after_value)
        }
        RStmt::Goto(_, part) => room_after_stages(part, measure, 1, room),
        RStmt::Mark(_, stmt) => room_after_stmt(stmt, measure, room),
        RStmt::Case(_) | RStmt::Default | RStmt::Break | RStmt::Continue => Some(room),
    }
}

#[cycle(count)]
fn room_after_stmts(stmts: &[RStmt], measure: Measure, room: usize) -> Option<usize>
    ensures { SomeIff result (sum_by (λ s. count measure (stmt_tree s)) stmts.now ≤ room) (room - sum_by (λ s. count measure (stmt_tree s)) stmts.now) }
{
    let mut rest = room;
    for stmt in stmts {
        rest = room_after_stmt(stmt, measure, rest)?;
    }
    Some(rest)
}

/// What is left of `room` after the count of the parts of a `for` before its body.
fn room_after_head(
    first: &[RPart],
    test: &RPart,
    third: &[RPart],
    measure: Measure,
    room: usize,
) -> Option<usize>
    ensures { SomeIff result (sum_by (count_part measure) (map part_tree first.now) + (count_stages measure (part_tree test.now) 2 + sum_by (count_part measure) (map part_tree third.now)) ≤ room) (room - (sum_by (count_part measure) (map part_tree first.now) + (count_stages measure (part_tree test.now) 2 + sum_by (count_part measure) (map part_tree third.now)))) }
{
    let after_first = room_after_parts(first, measure, room)?;
    let after_test = room_after_test(test, measure, after_first)?;
    room_after_parts(third, measure, after_test)
}

/// What is left of `room` after the count of the expression of a `switch`, which has a way out for each case and one
/// beside.
fn room_after_switch(value: &RPart, stmts: &[RStmt], measure: Measure, room: usize) -> Option<usize>
    ensures { SomeIff result (count_stages measure (part_tree value.now) (length (case_values (stmts_of (map stmt_tree stmts.now))) + 1) ≤ room) (room - count_stages measure (part_tree value.now) (length (case_values (stmts_of (map stmt_tree stmts.now))) + 1)) }
{
    let ways = case_count(stmts) + 1;
    room_after_stages(value, measure, ways, room)
}

/// What is left of `room` after the count of a test.
fn room_after_test(test: &RPart, measure: Measure, room: usize) -> Option<usize>
    ensures { SomeIff result (count_stages measure (part_tree test.now) 2 ≤ room) (room - count_stages measure (part_tree test.now) 2) }
{
    room_after_stages(test, measure, 2, room)
}

/// What is left of `room` after the count of parts outside a test.
fn room_after_parts(parts: &[RPart], measure: Measure, room: usize) -> Option<usize>
    ensures { SomeIff result (sum_by (λ p. count_part measure (part_tree p)) parts.now ≤ room) (room - sum_by (λ p. count_part measure (part_tree p)) parts.now) }
{
    let mut rest = room;
    for part in parts {
        rest = room_after_stages(part, measure, last_ways(part), rest)?;
    }
    Some(rest)
}

/// What is left of `room` after the count of a part whose last stage has `ways` ways out; each stage before has one.
fn room_after_stages(part: &RPart, measure: Measure, ways: usize, room: usize) -> Option<usize>
    ensures { SomeIff result (count_stages measure (part_tree part.now) ways ≤ room) (room - count_stages measure (part_tree part.now) ways) }
{
    let stages = stages_of(part);
    if stages == 0 {
        return Some(room);
    }
    let last = measure.of_stage(ways);
    room.checked_sub(stages - 1)?.checked_sub(last)
}

/// How many stages a part has: its calls, and its own point where it has one.
fn stages_of(part: &RPart) -> usize
    ensures { result ≡ length (part_tree part.now) }
{
    match part.main {
        None => part.calls.len(),
        Some(_) => part.calls.len() + 1,
    }
}

/// How many ways out the last stage of a part outside a test has.
fn last_ways(part: &RPart) -> usize
    ensures { result ≡ last_count (part_tree part.now) }
{
    own_ways(&part.main)
}

/// The same by the part's own point: an end of the run has none.
fn own_ways(main: &Option<Label>) -> usize
    ensures { result ≡ end_count (option_map label_tree main.now) }
{
    match main {
        Some(Label::Halt(_)) => 0,
        _ => 1,
    }
}

/// How many lines are a `case`.
fn case_count(stmts: &[RStmt]) -> usize
    ensures value { result ≡ length (case_values (stmts_of (map stmt_tree stmts.now))) }
    ensures few { result ≤ length stmts.now }
{
    let mut count = 0;
    for stmt in stmts {
        if case_of(stmt).is_some() {
            count += 1;
        }
    }
    count
}

/// The value of a line that is a `case`.
pub fn case_of(stmt: &RStmt) -> Option<i64>
    ensures { result ≡ case_of (stmt_tree stmt.now) }
{
    match stmt {
        RStmt::Case(value) => Some(*value),
        _ => None,
    }
}
