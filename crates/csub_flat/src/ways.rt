//! Where the ways out of points lead, in the words of runs.
ghost use Rattle.std.specs.Prelude.{◌<◌, length, IfOk, IfSome, IfNone};
ghost use Rattle.csub_semantics.specs.Points.{exit_tree, on_default};
ghost use Rattle.csub_semantics.specs.Flows.{point_list};
ghost use Rattle.csub_semantics.specs.Syntax.{program_tree};
ghost use Rattle.flow_graph.specs.Graph.{IsGraphOf};
ghost use Rattle.csub_flat.specs.Ways.{cases_of, LeadsNowhere, LeadsTo, AreCases, AreWaysOut};

use csub_core::Program;
use csub_semantics::ExitLabel;
use flow_graph::{Graph, WayOut};
use std::alloc::{AllocError, Global};

/// How many ways out a point may have whose cases are listed: a few are looked through faster than the cases of a program
/// are searched.
const MOST_LISTED: u32 = 9;

/// A case of a `switch`, with its way out.
#[derive(Clone, Copy)]
pub struct CaseWay {
    /// The value.
    pub value: i64,
    /// The way out.
    pub way: WayOut,
}

/// The ways out of a point, where the point has them.
#[derive(Drop)]
pub struct PointWays {
    /// The only way on.
    pub next: Option<WayOut>,
    /// The way where a test gives another number than 0.
    pub on_true: Option<WayOut>,
    /// The way where a test gives 0.
    pub on_false: Option<WayOut>,
    /// The way of a `switch` at a value that none of its cases has.
    pub otherwise: Option<WayOut>,
    /// The cases of a `switch`, none of a point without one; `None` where they are many.
    pub cases: Option<Vec<CaseWay>>,
}

/// The way out of a point by an exit label; `None` where the point has none.
pub fn way_along(program: &Program, graph: &Graph, point: u32, exit: &ExitLabel) -> Option<WayOut>
    requires graph { IsGraphOf graph.now (program_tree program.now) }
    requires point { point < length (point_list (program_tree program.now)) }
    ensures some { IfSome result (LeadsTo (program_tree program.now) point (exit_tree exit.now)) }
    ensures none { IfNone result (LeadsNowhere (program_tree program.now) point (exit_tree exit.now)) }
{
    graph.way_out(point, exit)
}

/// The way out of a point by a Default, which is the last of its ways out and so the first that is looked at; `None` where
/// the point has none.
fn default_way(program: &Program, graph: &Graph, point: u32) -> Option<WayOut>
    requires graph { IsGraphOf graph.now (program_tree program.now) }
    requires point { point < length (point_list (program_tree program.now)) }
    ensures some { IfSome result (LeadsTo (program_tree program.now) point (on_default (cases_of (program_tree program.now) point))) }
    ensures none { IfNone result (LeadsNowhere (program_tree program.now) point (on_default (cases_of (program_tree program.now) point))) }
{
    let edges = graph.edges_of(point);
    for edge in (edges.start..edges.end).rev() {
        let ends = graph.edge_at(edge);
        if let ExitLabel::Default(_) = ends.exit {
            return Some(WayOut { edge, to: ends.to });
        }
    }
    None
}

/// The cases of a point with their ways out, in the order of the source; `None` where they are many. An `Err` is want of
/// memory.
fn list_cases(
    alloc: Global,
    program: &Program,
    graph: &Graph,
    point: u32,
) -> Result<Option<Vec<CaseWay>>, AllocError>
    requires graph { IsGraphOf graph.now (program_tree program.now) }
    requires point { point < length (point_list (program_tree program.now)) }
    ensures { IfOk result (λ cases. IfSome cases (λ rows. AreCases (program_tree program.now) point rows.items)) }
{
    let edges = graph.edges_of(point);
    if MOST_LISTED < edges.end - edges.start {
        return Ok(None);
    }
    let mut rows = Vec::new(alloc);
    for edge in edges.start..edges.end {
        let ends = graph.edge_at(edge);
        if let ExitLabel::Case(value) = ends.exit {
            let way = WayOut { edge, to: ends.to };
            rows.push(CaseWay { value: *value, way })?;
        }
    }
    Ok(Some(rows))
}

/// The ways out of a point. An `Err` is want of memory.
pub fn ways_of(
    alloc: Global,
    program: &Program,
    graph: &Graph,
    point: u32,
) -> Result<PointWays, AllocError>
    requires graph { IsGraphOf graph.now (program_tree program.now) }
    requires point { point < length (point_list (program_tree program.now)) }
    ensures { IfOk result (AreWaysOut (program_tree program.now) point) }
{
    let next = way_along(program, graph, point, &ExitLabel::Next);
    let on_true = way_along(program, graph, point, &ExitLabel::True);
    let on_false = way_along(program, graph, point, &ExitLabel::False);
    let otherwise = default_way(program, graph, point);
    let cases = list_cases(alloc, program, graph, point)?;
    Ok(PointWays {
        next,
        on_true,
        on_false,
        otherwise,
        cases,
    })
}
