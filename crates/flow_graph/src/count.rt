//! How many points a statement has.
//!
//! The builder counts the body of a `while` and of a `for` before it makes the body's points, so it counts a point once
//! for each such loop round it: no more often than the point's path has steps.
ghost use Rattle.std.specs.Prelude.{◌≡◌, ◌^◌, ◌<◌, length, map};
ghost use Rattle.csub_semantics.specs.Syntax.{part_tree, stmt_tree, stmts_of};
ghost use Rattle.flow_graph.specs.Numbers.{count, count_parts, count_list};

use csub_semantics::{RPart, RStmt};

/// How many points a part has.
pub fn count_part(part: &RPart) -> u32
    requires { length (part_tree part.now) < 2 ^ 32 }
    ensures { result ≡ length (part_tree part.now) }
{
    let calls = part.calls.len() as u32;
    match part.main {
        None => calls,
        Some(_) => calls + 1,
    }
}

/// How many points parts have.
#[tactic(auto, using(crate::proofs::Rows::parts_left, crate::proofs::Rows::parts_none))]
pub fn count_parts_of(parts: &[RPart]) -> u32
    requires { count_parts (map part_tree parts.now) < 2 ^ 32 }
    ensures { result ≡ count_parts (map part_tree parts.now) }
{
    let mut sum = 0;
    for part in parts {
        sum += count_part(part);
    }
    sum
}

/// How many points a statement has.
#[cycle(count)]
pub fn count_of(stmt: &RStmt) -> u32
    requires { count (stmt_tree stmt.now) < 2 ^ 32 }
    ensures { result ≡ count (stmt_tree stmt.now) }
{
    match stmt {
        RStmt::Parts(parts) => count_parts_of(parts.as_slice()),
        RStmt::Block(stmts) => count_all(stmts.as_slice()),
        RStmt::If(test, then, other) => {
            let inner = match other {
                None => 0,
                Some(stmt) => count_of(stmt),
            };
            count_part(test) + count_of(then) + inner
        }
        RStmt::While(test, body) | RStmt::Do(body, test) => count_part(test) + count_of(body),
        RStmt::For(first, test, third, body) => {
            let head = count_parts_of(first.as_slice()) + count_part(test);
            head + count_parts_of(third.as_slice()) + count_of(body)
        }
        RStmt::Switch(value, stmts) => count_part(value) + count_all(stmts.as_slice()),
        RStmt::Goto(_, part) => count_part(part),
        RStmt::Mark(_, stmt) => count_of(stmt),
        RStmt::Case(_) | RStmt::Default | RStmt::Break | RStmt::Continue => 0,
    }
}

/// How many points the lines of a list have.
#[cycle(count)]
#[tactic(auto, using(crate::proofs::Rows::count_left, crate::proofs::Rows::count_none))]
pub fn count_all(stmts: &[RStmt]) -> u32
    requires { count_list (stmts_of (map stmt_tree stmts.now)) < 2 ^ 32 }
    ensures { result ≡ count_list (stmts_of (map stmt_tree stmts.now)) }
{
    let mut sum = 0;
    for stmt in stmts {
        sum += count_of(stmt);
    }
    sum
}
