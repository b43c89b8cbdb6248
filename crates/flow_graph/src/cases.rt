//! The ways out of a `switch`.
ghost use Rattle.std.specs.Prelude.{◌≡◌, ◌++◌, IfOk, OnOk, [], ◌∷◌, map, reverse, if◌then◌else◌};
ghost use Rattle.csub_semantics.specs.Points.{on_default};
ghost use Rattle.csub_semantics.specs.Syntax.{stmt_tree, stmts_of};
ghost use Rattle.csub_semantics.specs.Successors.{way, case_of, case_way, case_values, is_default, rising};
ghost use Rattle.flow_graph.specs.Numbers.{numbered_way};

use crate::node::GraphWay;
use csub_semantics::{ExitLabel, RStmt};
use std::alloc::{AllocError, Global};
use std::collections::BTreeSet;

/// Where a `switch` leads, gathered from its end.
#[derive(Drop)]
pub struct Cases {
    /// The ways out of its cases, last first.
    pub ways: Vec<GraphWay>,
    /// The point to which control goes in all other cases.
    pub other: u32,
}

/// Gathers where a line of a `switch` is the label of what is behind it, which begins at the point `behind`.
pub fn gather(line: &RStmt, behind: u32, cases: &mut Cases) -> Result<(), AllocError>
    ensures ways { OnOk result (map numbered_way cases.new.ways.items ≡ map numbered_way cases.old.ways.items ++ case_way (case_of (stmt_tree line.now)) behind) }
    ensures other { OnOk result (cases.new.other ≡ (if is_default (stmt_tree line.now) then behind else cases.old.other)) }
{
    match line {
        RStmt::Case(value) => cases.ways.push(GraphWay {
            exit: ExitLabel::Case(*value),
            to: behind,
        })?,
        RStmt::Default => cases.other = behind,
        _ => {}
    }
    Ok(())
}

/// The values of the cases among the lines of a `switch`, rising.
fn rising_values(alloc: Global, stmts: &[RStmt]) -> Result<Vec<i64>, AllocError>
    ensures { IfOk result (λ made. made.items ≡ rising [] (case_values (stmts_of (map stmt_tree stmts.now)))) }
{
    let mut values = BTreeSet::new(alloc);
    for stmt in stmts {
        if let RStmt::Case(value) = stmt {
            values.insert(*value)?;
        }
    }
    let mut made = Vec::new(alloc);
    for value in values {
        made.push(value)?;
    }
    Ok(made)
}

/// The ways out of a `switch` with these lines, in order.
pub fn switch_ways(
    alloc: Global,
    stmts: &[RStmt],
    cases: Cases,
) -> Result<Vec<GraphWay>, AllocError>
    ensures { IfOk result (λ made. map numbered_way made.items ≡ reverse (map numbered_way cases.ways.items) ++ way (on_default (rising [] (case_values (stmts_of (map stmt_tree stmts.now))))) cases.other ∷ []) }
{
    let values = rising_values(alloc, stmts)?;
    let Cases { ways, other } = cases;
    let mut ways = ways;
    ways.reverse();
    ways.push(GraphWay {
        exit: ExitLabel::Default(values),
        to: other,
    })?;
    Ok(ways)
}
