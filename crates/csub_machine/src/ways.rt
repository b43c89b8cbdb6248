//! Where the ways out of a point lead, in the words of runs.
ghost use Rattle.std.specs.Prelude.{ℕ, ◌<◌, length, IfSome, IfNone};
ghost use Rattle.csub_semantics.specs.Points.{on_case};
ghost use Rattle.csub_semantics.specs.Flows.{point_list};
ghost use Rattle.csub_semantics.specs.Runs.{exit_at};
ghost use Rattle.csub_semantics.specs.Syntax.{ProgramTree, program_tree};
ghost use Rattle.flow_graph.specs.Graph.{IsGraphOf};
ghost use Rattle.csub_flat.specs.Ways.{cases_of, LeadsNowhere, LeadsTo, AreCases, AreWaysOut};
ghost use Rattle.csub_slots.specs.Seen.{exit_seen};

use csub_core::Program;
use csub_flat::{CaseWay, PointWays, way_along};
use csub_semantics::ExitLabel;
use csub_slots::act::PlainExit;
use flow_graph::{Graph, WayOut};

/// The way out of a point by its ways out, but for those of a `switch`; `None` where the point has none.
#[inline(always)]
pub fn way_by(program: &Program, ways: &PointWays, point: u32, exit: PlainExit) -> Option<WayOut>
    requires ways { AreWaysOut (program_tree program.now) point ways.now }
    ensures some { IfSome result (LeadsTo (program_tree program.now) point (exit_seen exit)) }
    ensures none { IfNone result (LeadsNowhere (program_tree program.now) point (exit_seen exit)) }
{
    match exit {
        PlainExit::Next => ways.next,
        PlainExit::True => ways.on_true,
        PlainExit::False => ways.on_false,
    }
}

/// The way out of a point by the case of a value, in a table of its cases; `None` where none has the value.
#[inline(always)]
fn listed_case(rows: &[CaseWay], value: i64) -> Option<WayOut>
    ensures some { (P : ProgramTree) (n : ℕ) → AreCases P n rows.now → IfSome result (LeadsTo P n (on_case value)) }
    ensures none { (P : ProgramTree) (n : ℕ) → AreCases P n rows.now → IfNone result (LeadsNowhere P n (on_case value)) }
{
    for row in rows {
        if row.value == value {
            return Some(row.way);
        }
    }
    None
}

/// The same by the graph, which takes a logarithm of the cases of the program.
#[inline(never)]
fn searched_case(program: &Program, graph: &Graph, point: u32, value: i64) -> Option<WayOut>
    requires graph { IsGraphOf graph.now (program_tree program.now) }
    requires point { point < length (point_list (program_tree program.now)) }
    ensures some { IfSome result (LeadsTo (program_tree program.now) point (on_case value)) }
    ensures none { IfNone result (LeadsNowhere (program_tree program.now) point (on_case value)) }
{
    way_along(program, graph, point, &ExitLabel::Case(value))
}

/// The way out of a point by the case of a value; `None` where none has the value. Few cases are looked through, many are
/// searched.
#[inline(always)]
fn case_at(
    program: &Program,
    graph: &Graph,
    ways: &PointWays,
    point: u32,
    value: i64,
) -> Option<WayOut>
    requires graph { IsGraphOf graph.now (program_tree program.now) }
    requires point { point < length (point_list (program_tree program.now)) }
    requires ways { AreWaysOut (program_tree program.now) point ways.now }
    ensures some { IfSome result (LeadsTo (program_tree program.now) point (on_case value)) }
    ensures none { IfNone result (LeadsNowhere (program_tree program.now) point (on_case value)) }
{
    match &ways.cases {
        Some(rows) => listed_case(rows, value),
        None => searched_case(program, graph, point, value),
    }
}

/// The way out of a switch at a value, by its case or else by its Default; `None` where the point has none.
#[inline(always)]
pub fn way_at(
    program: &Program,
    graph: &Graph,
    ways: &PointWays,
    point: u32,
    value: i64,
) -> Option<WayOut>
    requires graph { IsGraphOf graph.now (program_tree program.now) }
    requires point { point < length (point_list (program_tree program.now)) }
    requires ways { AreWaysOut (program_tree program.now) point ways.now }
    ensures some { IfSome result (LeadsTo (program_tree program.now) point (exit_at (cases_of (program_tree program.now) point) value)) }
    ensures none { IfNone result (LeadsNowhere (program_tree program.now) point (exit_at (cases_of (program_tree program.now) point) value)) }
{
    match case_at(program, graph, ways, point, value) {
        Some(way) => Some(way),
        None => ways.otherwise,
    }
}
